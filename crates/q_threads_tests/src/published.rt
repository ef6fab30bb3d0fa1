//! What gauges may see of a drain: the row after each turn, and nothing of what settles.
ghost use Rattle.std.specs.Prelude.{◌≡◌, length, map};
ghost use Rattle.q_ports.specs.Placed.{ring_of_port};
ghost use Rattle.q_ports.specs.Rings.{ring_id};

use crate::common::{
    assert_count, assert_totals, driven_all, fill, hundreds, loads, packet, settled_at, take_turn,
};
use crate::shown::Shown;
use crate::traffic::{Traffic, read_beside};
use crate::unbooked::{Unbooked, fresh, last_row};
use crate::watch::Watch;
use q_packet::Packet;
use q_ports::{Booked, Drain, Gauge, Port};
use std::alloc::Global;
use std::marker::Brand;
use std::process::Abort;
use std::sync::ledger::Ledger;
use std::sync::{Arc, Mutex, Wait};
use std::test::Fail;
use std::thread;
use std::thread::Threads;

/// How many packets are driven.
const PACKETS: usize = 200;

/// How often packets settle while a gauge reads.
const ROUNDS: u64 = 40;

#[test]
fn each_turn_of_a_drive_is_shown(rt: HostRuntime) -> Result<(), Fail> {
    let alloc = rt.alloc();
    let given = packet(5).expect(&rt, "a packet");
    let loads = loads(alloc, 1, PACKETS, given)?;
    let unbooked = fresh(&rt, alloc, 1000, 0);
    watched::<Brand, Brand, _>(&rt, alloc, unbooked, loads);
    Ok(())
}

// Drives one port with a gauge at its gate.
fn watched<P: Ledger + Send + Sync, B: Ledger + Send + Sync, R: Threads + Wait + Sync + Abort>(
    rt: &R,
    alloc: Global,
    unbooked: Unbooked,
    loads: Vec<Vec<Packet>>,
)
    requires { (unbooked.packets.name ≡ P.name) × (P.parts ≡ 65) × (unbooked.bytes.name ≡ B.name) × (B.parts ≡ 65) }
{
    let counts = (loads.len(), 4, 1);
    let (booked, drain, ports, mut gauges) = unbooked.opened::<P, B, R>(rt, alloc, counts);
    let gauge = gauges.pop().expect(rt, "a gauge");
    drive_watched(rt, alloc, &booked, drain, ports, loads, gauge);
    let row = last_row(rt, booked, gauges);
    assert_totals(rt, row.arrived, hundreds(PACKETS as u64));
}

// Drives past the watch.
fn drive_watched<
    P: Ledger + Send + Sync,
    B: Ledger + Send + Sync,
    R: Threads + Wait + Sync + Abort,
>(
    rt: &R,
    alloc: Global,
    booked: &Mutex<Booked<P, B>>,
    drain: Drain<P, B>,
    ports: Vec<Port>,
    loads: Vec<Vec<Packet>>,
    gauge: Gauge,
)
    requires parts { (P.parts ≡ 65) × (B.parts ≡ 65) }
    requires ports { map ring_of_port ports.items ≡ map ring_id drain.rings }
    requires loads { length loads.items ≡ length ports.items }
{
    let shown = Shown::new(gauge);
    let gate = Watch {
        rt,
        booked,
        shown: &shown,
    };
    let (settled, given_up) = driven_all(rt, alloc, booked, drain, ports, loads, &gate, 1, 1);
    assert_eq!(rt; shown.counts(), (0u64, 0u64));
    assert_totals(rt, settled, hundreds(PACKETS as u64));
    assert_count(rt, given_up, 0);
}

#[test]
fn what_settles_is_not_shown(rt: HostRuntime) -> Result<(), Fail> {
    let alloc = rt.alloc();
    let given = packet(5).expect(&rt, "a packet");
    for _round in 0..ROUNDS {
        let traffic = Arc::new(alloc, Traffic::new())?;
        let unbooked = fresh(&rt, alloc, 1000, 0);
        settled::<Brand, Brand, _>(&rt, alloc, unbooked, &traffic, given);
    }
    Ok(())
}

// A turn takes one packet of three, and the others settle, while a gauge reads.
fn settled<P: Ledger, B: Ledger, R: Threads + Wait + Abort>(
    rt: &R,
    alloc: Global,
    unbooked: Unbooked,
    traffic: &Arc<Traffic, Global>,
    given: Packet,
)
    requires { (unbooked.packets.name ≡ P.name) × (P.parts ≡ 65) × (unbooked.bytes.name ≡ B.name) × (B.parts ≡ 65) }
{
    let (booked, mut drain, mut ports, mut gauges) = unbooked.opened::<P, B, R>(
        rt,
        alloc,
        (1, 4, 1),
    );
    fill(rt, &mut ports, 0, 3, given);
    take_turn(rt, alloc, &booked, &mut drain, 0, 1);
    let reading = read_beside(rt, traffic, &mut gauges);
    wait_for_reads(rt, traffic);
    let settled = settled_at(rt, &booked, drain, ports, 0);
    traffic.end();
    let row = last_row(rt, booked, gauges);
    assert_eq!(rt; settled, Some(hundreds(3)));
    assert_totals(rt, row.arrived, hundreds(3));
    assert_eq!(rt; reading.join(rt), (0u64, 1u64));
}

// Waits until the gauge reads.
fn wait_for_reads<R: Abort>(rt: &R, traffic: &Traffic) {
    for _look in 0..10_000_000u64 {
        if traffic.read() > 0 {
            return;
        }
        thread::yield_now();
    }
    panic!(rt; "no row was read");
}
