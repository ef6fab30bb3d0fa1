//! Calls for which an allocation fails, and which are then made again.
//!
//! `rt try --test --fail-alloc N` refuses the Nth allocation of the tests, and `tools/refuse-memory` each thread too. These pass for every
//! N: what was refused succeeds at the second call, and nothing is lost.
ghost use Rattle.std.specs.Prelude.{◌≡◌, ◌≤◌, length, map};
ghost use Rattle.q_ports.specs.Held.{held};
ghost use Rattle.q_ports.specs.Placed.{ring_of_port};
ghost use Rattle.q_ports.specs.Rings.{ring_id};

use crate::common::{assert_count, assert_totals, fill, hundreds, limited, loads, packet};
use crate::open_gate::OpenGate;
use crate::unbooked::{Unbooked, fresh, last_row};
use q_packet::{Moment, Packet};
use q_ports::{Booked, Drain, Driven, Gauge, Port, Seat, Share, Unsettled, drive, open_ports};
use std::alloc::Global;
use std::marker::Brand;
use std::process::Abort;
use std::sync::ledger::Ledger;
use std::sync::{Mutex, Wait};
use std::test::Fail;
use std::thread::Threads;

/// How many packets wait in the ring.
const PACKETS: u64 = 100;

/// How often a packet is offered: for a minute and more, so that none is given up where other processes starve the drain for seconds.
const TRIES: u64 = 100_000_000;

/// How many ports are driven, how many places their rings have, and how many packets each load.
#[derive(Clone, Copy)]
struct Sizes {
    ports: usize,
    ring: usize,
    each: u64,
}

/// One port, whose load fits into its ring.
const ONE: Sizes = Sizes {
    ports: 1,
    ring: 128,
    each: PACKETS,
};

/// Three ports, each with a packet more than its ring has places: a sender places the last one only while the drain takes turns, so
/// never on the drain's own thread.
const THREE: Sizes = Sizes {
    ports: 3,
    ring: 4,
    each: 5,
};

#[test]
fn what_was_refused_succeeds_later(rt: HostRuntime) -> Result<(), Fail> {
    let alloc = rt.alloc();
    let given = packet(5).expect(&rt, "a packet");
    let unbooked = retried(&rt, alloc);
    refused::<Brand, Brand, _>(&rt, alloc, unbooked, given);
    Ok(())
}

#[test]
fn a_refused_drive_settles_later(rt: HostRuntime) -> Result<(), Fail> {
    drive_all(&rt, rt.alloc(), ONE)
}

// Where a sender got no thread, the drive is not settled, and that sender has placed nothing.
#[test]
fn a_sender_without_a_thread_offers_nothing(rt: HostRuntime) -> Result<(), Fail> {
    drive_all(&rt, rt.alloc(), THREE)
}

// Drives ports of these sizes.
fn drive_all<R: Threads + Wait + Sync + Abort>(
    rt: &R,
    alloc: Global,
    sizes: Sizes,
) -> Result<(), Fail> {
    assert!(rt; 1 <= sizes.ports && sizes.ports <= 64);
    assert!(rt; 1 <= sizes.ring && sizes.ring <= 65_536);
    let given = packet(5).expect(rt, "a packet");
    let each = sizes.each as usize;
    let loads = match loads(alloc, sizes.ports, each, given) {
        Ok(loads) => loads,
        Err(_) => loads(alloc, sizes.ports, each, given)?,
    };
    assert!(rt; loads.len() == sizes.ports);
    let unbooked = retried(rt, alloc);
    driven::<Brand, Brand, _>(rt, alloc, unbooked, sizes, loads);
    Ok(())
}

// A device that records four events, at the second try if an allocation fails.
fn retried<R: Abort>(rt: &R, alloc: Global) -> Unbooked {
    match limited(alloc, 1000, 4) {
        Some(device) => Unbooked::new(device),
        None => fresh(rt, alloc, 1000, 4),
    }
}

// Drives ports. Where that is refused, each port has placed all of its load or, as its sender got no thread, nothing; what was placed is
// settled.
fn driven<P: Ledger + Send + Sync, B: Ledger + Send + Sync, R: Threads + Wait + Sync + Abort>(
    rt: &R,
    alloc: Global,
    unbooked: Unbooked,
    sizes: Sizes,
    loads: Vec<Vec<Packet>>,
)
    requires sizes { (1 ≤ sizes.ports) × (sizes.ports ≤ 64) × (1 ≤ sizes.ring) × (sizes.ring ≤ 65_536) }
    requires loads { length loads.items ≡ sizes.ports }
    requires ledgers { (unbooked.packets.name ≡ P.name) × (P.parts ≡ 65) × (unbooked.bytes.name ≡ B.name) × (B.parts ≡ 65) }
{
    let (booked, seat) = unbooked.locked::<P, B>();
    let (drain, ports, gauges) = open_all(rt, alloc, seat, sizes.ports, sizes.ring);
    let share = drive_once(rt, alloc, &booked, drain, ports, loads, sizes);
    let row = last_row(rt, booked, gauges);
    assert_totals(rt, row.arrived, share);
}

// Drives the ports, and answers how much was settled: all of the loads, or what a refused drive had placed.
fn drive_once<P: Ledger + Send + Sync, B: Ledger + Send + Sync, R: Threads + Wait + Sync + Abort>(
    rt: &R,
    alloc: Global,
    booked: &Mutex<Booked<P, B>>,
    drain: Drain<P, B>,
    ports: Vec<Port>,
    loads: Vec<Vec<Packet>>,
    sizes: Sizes,
) -> Share
    requires parts { (P.parts ≡ 65) × (B.parts ≡ 65) }
    requires ports { map ring_of_port ports.items ≡ map ring_id drain.rings }
    requires loads { length loads.items ≡ length ports.items }
{
    let start = Moment::zero();
    match drive(
        rt, alloc, booked, drain, ports, loads, &OpenGate, start, 1, TRIES,
    ) {
        Ok(driven) => share_of(rt, sizes, driven),
        Err(Unsettled { drain, ports }) => {
            let placed = placed(rt, sizes, &ports);
            assert_totals(rt, settle(rt, booked, drain, ports), placed);
            placed
        }
    }
}

// What a drive has settled, which is all of its loads.
fn share_of<P: Ledger, B: Ledger, R: Abort>(rt: &R, sizes: Sizes, driven: Driven<P, B>) -> Share {
    let share = driven.settled.share();
    let all = sizes.each.saturating_mul(sizes.ports as u64);
    assert_totals(rt, share, hundreds(all));
    assert_count(rt, driven.given_up, 0);
    share
}

// What the ports have placed, each all or nothing: nothing at one where its thread could not be started, and at each where no room for
// senders could be had.
fn placed<R: Abort>(rt: &R, sizes: Sizes, ports: &Vec<Port>) -> Share {
    let mut full = 0u64;
    for port in ports {
        let share = port.share();
        if share != hundreds(0) {
            assert_totals(rt, share, hundreds(sizes.each));
            full = full.saturating_add(1);
        }
    }
    let count = sizes.ports as u64;
    assert!(rt; full == 0 || full >= count.saturating_sub(1));
    hundreds(sizes.each.saturating_mul(full))
}

// Opens a port, fills its ring, takes a turn and settles.
fn refused<P: Ledger, B: Ledger, R: Wait + Abort>(
    rt: &R,
    alloc: Global,
    unbooked: Unbooked,
    given: Packet,
)
    requires { (unbooked.packets.name ≡ P.name) × (P.parts ≡ 65) × (unbooked.bytes.name ≡ B.name) × (B.parts ≡ 65) }
{
    let (booked, seat) = unbooked.locked::<P, B>();
    let (mut drain, mut ports, mut gauges) = open_all(rt, alloc, seat, 1, 128);
    fill(rt, &mut ports, 0, PACKETS, given);
    turn(rt, alloc, &booked, &mut drain, &mut gauges);
    let share = settle(rt, &booked, drain, ports);
    let row = last_row(rt, booked, gauges);
    assert_totals(rt, share, hundreds(PACKETS));
    assert_totals(rt, row.arrived, hundreds(PACKETS));
}

// A drain with ports and a gauge, at the second call if an allocation failed.
fn open_all<P: Ledger, B: Ledger, R: Wait + Abort>(
    rt: &R,
    alloc: Global,
    seat: Seat<P, B>,
    ports: usize,
    ring: usize,
) -> (Drain<P, B>, Vec<Port>, Vec<Gauge>)
    requires seat { seat ≡ held 65 0 0 }
    requires ports { (1 ≤ ports) × (ports ≤ 64) }
    requires ring { (1 ≤ ring) × (ring ≤ 65_536) }
    ensures rings { map ring_of_port result.1.items ≡ map ring_id result.0.rings }
    ensures ports { length result.1.items ≡ ports }
{
    let seat = match open_ports(rt, alloc, seat, ports, ring, 1) {
        Ok(opened) => return opened,
        Err((seat, _)) => seat,
    };
    match open_ports(rt, alloc, seat, ports, ring, 1) {
        Ok(opened) => opened,
        Err(_) => panic!(rt; "refused twice"),
    }
}

// A turn of four, at the second call if an allocation failed. The gauge reads what arrived, unless nothing was reported.
fn turn<P: Ledger, B: Ledger, R: Wait + Abort>(
    rt: &R,
    alloc: Global,
    booked: &Mutex<Booked<P, B>>,
    drain: &mut Drain<P, B>,
    gauges: &mut Vec<Gauge>,
)
    ensures { map ring_id drain.new.rings ≡ map ring_id drain.old.rings }
{
    let now = Moment::zero();
    let turn = match drain.turn(rt, alloc, booked, now, 4) {
        Ok(turn) => turn,
        Err(_) => drain.turn(rt, alloc, booked, now, 4).expect(rt, "memory"),
    };
    assert!(rt; turn.memory || turn.taken == 4);
    let arrived = arrived(rt, gauges);
    assert!(rt; turn.told.is_none() || arrived == turn.taken as u64);
}

// How many packets have arrived, as the first gauge reads it.
fn arrived<R: Abort>(rt: &R, gauges: &mut Vec<Gauge>) -> u64 {
    let gauge = gauges.get_mut(0).expect(rt, "a gauge");
    gauge.read().expect(rt, "a row").arrived.packets
}

// Settles, at the second call if an allocation failed, and answers how much.
fn settle<P: Ledger, B: Ledger, R: Wait + Abort>(
    rt: &R,
    booked: &Mutex<Booked<P, B>>,
    drain: Drain<P, B>,
    ports: Vec<Port>,
) -> Share
    requires parts { (P.parts ≡ 65) × (B.parts ≡ 65) }
    requires ports { map ring_of_port ports.items ≡ map ring_id drain.rings }
{
    let Unsettled { drain, ports } = match drain.settle(rt, booked, ports, Moment::zero()) {
        Ok(settled) => return settled.share(),
        Err(unsettled) => unsettled,
    };
    match drain.settle(rt, booked, ports, Moment::zero()) {
        Ok(settled) => settled.share(),
        Err(unsettled) => {
            unsettled.drain.end(rt);
            panic!(rt; "refused twice")
        }
    }
}
