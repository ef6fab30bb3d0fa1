//! Senders in threads of their own, while the drain takes turns and gauges read.
ghost use Rattle.std.specs.Prelude.{◌≡◌};

use crate::common::{assert_count, assert_totals, driven_all, hundreds, loads, packet};
use crate::meeting::{Meeting, READS};
use crate::open_gate::OpenGate;
use crate::rows::{NO_ROW, is_balanced};
use crate::shaped::{kinds, set_up};
use crate::unbooked::{Unbooked, fresh, last_row};
use q_device::{Event, Row, Totals};
use q_packet::Packet;
use q_ports::{Booked, Gauge};
use std::alloc::{AllocError, Global};
use std::marker::Brand;
use std::process::Abort;
use std::sync::ledger::Ledger;
use std::sync::{Arc, Mutex, Wait};
use std::test::Fail;
use std::thread;
use std::thread::{JoinHandle, Threads};

#[test]
fn senders_meet_and_place_all(rt: HostRuntime) -> Result<(), Fail> {
    senders_place_all(&rt, rt.alloc(), (4, 1000, 16), 1)?;
    senders_place_all(&rt, rt.alloc(), (64, 15_625, 16_384), 0)
}

// The device has the settings that a device has by default, and one pfifo.
#[test]
fn four_senders_settle_on_a_device_with_defaults(rt: HostRuntime) -> Result<(), Fail> {
    let alloc = rt.alloc();
    let given = packet(5).expect(&rt, "a packet");
    let loads = loads(alloc, 4, 1000, given)?;
    let unbooked = fresh(&rt, alloc, 1000, 4096);
    tried::<Brand, Brand, _>(&rt, alloc, unbooked, loads, 16, (TRIES, 4000, 0));
    Ok(())
}

// No packet is placed where none may be tried, and each at the first try where its ring has room for the whole load.
#[test]
fn a_packet_is_tried_as_often_as_asked_for(rt: HostRuntime) -> Result<(), Fail> {
    let alloc = rt.alloc();
    let given = packet(5).expect(&rt, "a packet");
    for wanted in &[(0u64, 0u64, 16u64), (1, 16, 0)] {
        let loads = loads(alloc, 2, 8, given)?;
        let unbooked = fresh(&rt, alloc, 1000, 0);
        tried::<Brand, Brand, _>(&rt, alloc, unbooked, loads, 8, *wanted);
    }
    Ok(())
}

// Sixty-four senders over rings of one place: half of them have nothing to offer, and end at once.
#[test]
fn senders_that_offer_nothing_end_beside_others(rt: HostRuntime) -> Result<(), Fail> {
    let alloc = rt.alloc();
    let given = packet(5).expect(&rt, "a packet");
    let loads = every_other(alloc, given)?;
    let unbooked = fresh(&rt, alloc, 1000, 0);
    tried::<Brand, Brand, _>(&rt, alloc, unbooked, loads, 1, (TRIES, 32 * 8, 0));
    Ok(())
}

// Thirty-two loads of nothing, and a load after each.
fn every_other(alloc: Global, given: Packet) -> Result<Vec<Vec<Packet>>, AllocError> {
    let mut loads = Vec::new(alloc);
    for _pair in 0..32 {
        loads.push(Vec::new(alloc))?;
        loads.push(vec![in alloc; given; 8]?)?;
    }
    Ok(loads)
}

// Drives the device with a load for each port, over rings of so many places. Each packet is tried so often; so many are placed and
// arrive, and so many are given up.
fn tried<P: Ledger + Send + Sync, B: Ledger + Send + Sync, R: Threads + Wait + Sync + Abort>(
    rt: &R,
    alloc: Global,
    unbooked: Unbooked,
    loads: Vec<Vec<Packet>>,
    ring: usize,
    wanted: (u64, u64, u64),
)
    requires { (unbooked.packets.name ≡ P.name) × (P.parts ≡ 65) × (unbooked.bytes.name ≡ B.name) × (B.parts ≡ 65) }
{
    let (tries, placed, left) = wanted;
    let counts = (loads.len(), ring, 0);
    let (booked, drain, ports, gauges) = unbooked.opened::<P, B, R>(rt, alloc, counts);
    let (settled, given_up) = driven_all(
        rt, alloc, &booked, drain, ports, loads, &OpenGate, STEP, tries,
    );
    let row = last_row(rt, booked, gauges);
    assert_totals(rt, settled, hundreds(placed));
    assert_count(rt, given_up, left);
    assert_arrived(rt, &row, settled);
}

// So many senders place so many packets each over rings of so many. Half way so many have arrived at least.
fn senders_place_all<R: Threads + Wait + Sync + Abort>(
    rt: &R,
    alloc: Global,
    counts: (usize, usize, usize),
    fewest: u64,
) -> Result<(), Fail> {
    let meeting = Meeting::new(alloc, counts.0, counts.1 as u64, fewest)?;
    let gate = Arc::new(alloc, meeting)?;
    let loads = loads_of(alloc, counts)?;
    let unbooked = fresh(rt, alloc, 1000, 4096);
    driven::<Brand, Brand, R>(rt, alloc, unbooked, loads, &gate, counts);
    let all = all_of(counts);
    let (missed, offered, placed) = gate.counts();
    assert_count(rt, missed, 0);
    assert_count(rt, offered, all);
    assert_count(rt, placed, all);
    Ok(())
}

// The loads of the senders: one packet again and again where the rings are long, and packets of three kinds otherwise.
fn loads_of(alloc: Global, counts: (usize, usize, usize)) -> Result<Vec<Vec<Packet>>, Fail> {
    let (senders, each, _ring) = counts;
    if has_long_rings(counts) {
        Ok(loads(alloc, senders, each, packet(5).ok_or("a packet")?)?)
    } else {
        let kinds = kinds().ok_or("packets")?;
        Ok(mixed_loads(alloc, senders, each, &kinds)?)
    }
}

// Whether a ring has room for a whole load. All packets may be placed then before the second turn.
fn has_long_rings(counts: (usize, usize, usize)) -> bool {
    counts.1 <= counts.2
}

// How many packets all senders have.
fn all_of(counts: (usize, usize, usize)) -> u64 {
    (counts.0 as u64).saturating_mul(counts.1 as u64)
}

// A load for each sender, of these packets in turn.
fn mixed_loads(
    alloc: Global,
    senders: usize,
    each: usize,
    kinds: &[Packet; 3],
) -> Result<Vec<Vec<Packet>>, AllocError> {
    let mut loads = Vec::new(alloc);
    for _sender in 0..senders {
        let mut load = Vec::with_capacity(alloc, each)?;
        for nth in 0..each {
            load.push(kinds[nth % 3])?;
        }
        loads.push(load)?;
    }
    Ok(loads)
}

// Drives the device: every packet of the loads is placed and settled, and both gauges read all the while.
fn driven<P: Ledger + Send + Sync, B: Ledger + Send + Sync, R: Threads + Wait + Sync + Abort>(
    rt: &R,
    alloc: Global,
    unbooked: Unbooked,
    loads: Vec<Vec<Packet>>,
    gate: &Arc<Meeting, Global>,
    counts: (usize, usize, usize),
)
    requires { (unbooked.packets.name ≡ P.name) × (P.parts ≡ 65) × (unbooked.bytes.name ≡ B.name) × (B.parts ≡ 65) }
{
    let all = hundreds(all_of(counts));
    let is_shaped = !has_long_rings(counts);
    let counts = (loads.len(), counts.2, 2);
    let (booked, drain, ports, mut gauges) = unbooked.opened::<P, B, R>(rt, alloc, counts);
    if is_shaped {
        set_up(rt, &booked);
    }
    let zero = read_beside(rt, gate, &mut gauges);
    let one = read_beside(rt, gate, &mut gauges);
    let (settled, given_up) = driven_all(
        rt, alloc, &booked, drain, ports, loads, &**gate, STEP, TRIES,
    );
    let in_steps = is_in_steps(rt, &booked);
    let row = last_row(rt, booked, gauges);
    assert_totals(rt, settled, all);
    assert_count(rt, given_up, 0);
    assert_count(rt, zero.join(rt), READS);
    assert_count(rt, one.join(rt), READS);
    assert_arrived(rt, &row, all);
    assert!(rt; in_steps && (!is_shaped || is_counted(&row)));
}

// So much has arrived, and the device's row is balanced.
fn assert_arrived<R: Abort>(rt: &R, row: &Row, all: Totals) {
    assert_totals(rt, row.arrived, all);
    assert!(rt; is_balanced(row));
}

/// The nanoseconds between two turns.
const STEP: u64 = 1000;

/// How often a packet is offered.
const TRIES: u64 = 1_000_000_000;

// Whether packets were sent, refused, dropped and marked.
fn is_counted(row: &Row) -> bool {
    let (sent, refused) = (row.sent.packets, row.refused.packets);
    sent > 0 && refused > 0 && row.dropped.packets > 0 && row.marked.packets > 0
}

// A gauge that has read the row with which the drain opened.
fn opening<R: Abort>(rt: &R, gauges: &mut Vec<Gauge>) -> Gauge {
    let mut gauge = gauges.pop().expect(rt, "a gauge");
    assert_eq!(rt; gauge.read(), Some(NO_ROW));
    gauge
}

// A thread in which a gauge reads.
fn read_beside<R: Threads + Abort>(
    rt: &R,
    gate: &Arc<Meeting, Global>,
    gauges: &mut Vec<Gauge>,
) -> JoinHandle<u64> {
    let gauge = opening(rt, gauges);
    let gate = Arc::try_clone(gate).expect(rt, "a count");
    thread::spawn(rt, move || gate.read_often(gauge)).expect(rt, "a thread")
}

// Whether the recorded events are in steps.
fn is_in_steps<P: Ledger, B: Ledger, R: Wait>(rt: &R, booked: &Mutex<Booked<P, B>>) -> bool {
    are_in_steps(booked.lock(rt).recorded())
}

// Whether the first event comes at 0, and each other one with the one before or a step later, and there are two turns at least.
fn are_in_steps(events: &[Event]) -> bool {
    let mut next = 0u64;
    for event in events {
        let now = match event {
            Event::Arrive(_, now) | Event::Poll(now) | Event::Command(_, now) => now.ns(),
        };
        if now == next {
            next = next.saturating_add(STEP);
        } else if now.saturating_add(STEP) != next {
            return false;
        }
    }
    STEP < next
}
