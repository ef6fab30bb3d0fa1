//! Loads that are longer than their rings while nobody drains, what the first turn of a drive takes after that, and that nothing else
//! happens to the device.
ghost use Rattle.std.specs.Prelude.{◌≡◌, length, map};
ghost use Rattle.q_ports.specs.Placed.{ring_of_port};
ghost use Rattle.q_ports.specs.Rings.{ring_id};

use crate::blockade::Blockade;
use crate::common::{assert_count, assert_totals, driven_all, hundreds, packet};
use crate::drive_walk::DriveWalk;
use crate::signals::Signals;
use crate::unbooked::{Unbooked, fresh, last_row};
use q_packet::Packet;
use q_ports::{Booked, Drain, Port};
use std::alloc::{AllocError, Global};
use std::marker::Brand;
use std::process::Abort;
use std::sync::ledger::Ledger;
use std::sync::{Mutex, Wait};
use std::test::Fail;
use std::thread::Threads;

/// The places of a ring.
const PLACES: usize = 100;

/// How many packets the queue takes: one less than a turn of a drive.
const LIMIT: u64 = 63;

/// How many events are recorded: a drive takes idle turns until its senders begin.
const RECORDED: u64 = 1_000_000;

/// How many packets are given up: each is tried three times while the ring is full.
const GIVEN_UP: u64 = 20;

#[test]
fn what_finds_its_ring_full_is_given_up(rt: HostRuntime) -> Result<(), Fail> {
    let alloc = rt.alloc();
    let given = packet(5).expect(&rt, "a packet");
    let loads = loads(alloc, given)?;
    let unbooked = fresh(&rt, alloc, LIMIT as u32, RECORDED as u32);
    let walk = DriveWalk::new(given, LIMIT, 1);
    undrained::<Brand, Brand, _>(&rt, alloc, unbooked, loads, walk);
    Ok(())
}

// The loads of two ports.
fn loads(alloc: Global, given: Packet) -> Result<Vec<Vec<Packet>>, AllocError> {
    let mut loads = Vec::with_capacity(alloc, 2)?;
    loads.push(vec![in alloc; given; 121]?)?;
    loads.push(vec![in alloc; given; 1]?)?;
    Ok(loads)
}

// Of port 0 a hundred packets are placed and twenty given up, and its last one and that of port 1 are placed once the drain has
// taken turns. The first of these takes 64 packets, of which the device refuses one, and sends the others; the next one takes
// the rest. The recorded events are those of such a drive; what came behind a full recorder is not checked.
fn undrained<P: Ledger + Send + Sync, B: Ledger + Send + Sync, R: Threads + Wait + Sync + Abort>(
    rt: &R,
    alloc: Global,
    unbooked: Unbooked,
    loads: Vec<Vec<Packet>>,
    walk: DriveWalk,
)
    requires { (unbooked.packets.name ≡ P.name) × (P.parts ≡ 65) × (unbooked.bytes.name ≡ B.name) × (B.parts ≡ 65) }
{
    let counts = (loads.len(), PLACES, 0);
    let (booked, drain, ports, gauges) = unbooked.opened::<P, B, R>(rt, alloc, counts);
    drive_blocked(rt, alloc, &booked, drain, ports, loads);
    let mut walk = walk;
    let (is_whole, is_walked) = is_walked(rt, &booked, &mut walk);
    let row = last_row(rt, booked, gauges);
    assert_totals(rt, row.arrived, hundreds(102));
    assert_totals(rt, row.refused, hundreds(1));
    if is_whole {
        assert!(rt; is_walked);
        assert_totals(rt, row.queued, hundreds(walk.queued));
        assert_eq!(rt; walk.placed, [101u64, 1]);
    }
}

// Whether all events were recorded, and whether the walk follows those that were, and the packet that was refused comes back and no
// other.
fn is_walked<P: Ledger, B: Ledger, R: Wait>(
    rt: &R,
    booked: &Mutex<Booked<P, B>>,
    walk: &mut DriveWalk,
) -> (bool, bool) {
    let mut locked = booked.lock(rt);
    let is_whole = locked.events() <= RECORDED;
    let is_followed = walk.follow(locked.recorded());
    let (first, second) = (locked.reap(), locked.reap());
    (
        is_whole,
        is_followed && first == walk.lost && second.is_none(),
    )
}

// Drives the ports past the blockade.
fn drive_blocked<
    P: Ledger + Send + Sync,
    B: Ledger + Send + Sync,
    R: Threads + Wait + Sync + Abort,
>(
    rt: &R,
    alloc: Global,
    booked: &Mutex<Booked<P, B>>,
    drain: Drain<P, B>,
    ports: Vec<Port>,
    loads: Vec<Vec<Packet>>,
)
    requires parts { (P.parts ≡ 65) × (B.parts ≡ 65) }
    requires ports { map ring_of_port ports.items ≡ map ring_id drain.rings }
    requires loads { length loads.items ≡ length ports.items }
{
    let signals = Signals::new(121, PLACES as u64);
    let gate = Blockade {
        rt,
        booked,
        signals: &signals,
    };
    let (settled, given_up) = driven_all(rt, alloc, booked, drain, ports, loads, &gate, 1, 3);
    assert_eq!(rt; signals.counts(), (0u64, 102u64, 5172u64));
    assert_totals(rt, settled, hundreds(102));
    assert_count(rt, given_up, GIVEN_UP);
}
