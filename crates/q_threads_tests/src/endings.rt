//! A drain that ends while senders offer and gauges read.
ghost use Rattle.std.specs.Prelude.{◌≡◌};

use crate::common::{assert_count, packet, row, take_turn};
use crate::traffic::{Traffic, read_beside};
use crate::unbooked::{Unbooked, end, fresh};
use q_packet::Packet;
use q_ports::{Booked, Drain, Port};
use std::alloc::Global;
use std::marker::Brand;
use std::process::Abort;
use std::sync::ledger::Ledger;
use std::sync::{Arc, Mutex, Wait};
use std::test::Fail;
use std::thread;
use std::thread::{JoinHandle, Threads};

/// The places of a ring.
const PLACES: u64 = 16;

/// How many packets arrive before the drain ends.
const ARRIVED: u64 = 200;

#[test]
fn senders_and_gauges_outlive_the_drain(rt: HostRuntime) -> Result<(), Fail> {
    let alloc = rt.alloc();
    let given = packet(5).expect(&rt, "a packet");
    let traffic = Arc::new(alloc, Traffic::new())?;
    let unbooked = fresh(&rt, alloc, 1000, 0);
    outlived::<Brand, Brand, _>(&rt, alloc, unbooked, &traffic, given);
    Ok(())
}

// Two senders offer and a gauge reads, while the drain takes turns and ends. Each ring is full then, and no other packet is lost.
// The gauge reads balanced rows, or none.
fn outlived<P: Ledger, B: Ledger, R: Threads + Wait + Abort>(
    rt: &R,
    alloc: Global,
    unbooked: Unbooked,
    traffic: &Arc<Traffic, Global>,
    given: Packet,
)
    requires { (unbooked.packets.name ≡ P.name) × (P.parts ≡ 65) × (unbooked.bytes.name ≡ B.name) × (B.parts ≡ 65) }
{
    let (booked, mut drain, mut ports, mut gauges) = unbooked.opened::<P, B, R>(
        rt,
        alloc,
        (2, PLACES as usize, 1),
    );
    let reading = read_beside(rt, traffic, &mut gauges);
    let one = offer_beside(rt, traffic, &mut ports, given);
    let zero = offer_beside(rt, traffic, &mut ports, given);
    let arrived = take_turns(rt, alloc, &booked, &mut drain, traffic);
    end(rt, booked, drain, ports, gauges);
    traffic.end();
    let placed = placed_by(rt, zero).saturating_add(placed_by(rt, one));
    assert_count(rt, placed, arrived.saturating_add(2 * PLACES));
    let (wrong, _most) = reading.join(rt);
    assert_count(rt, wrong, 0);
}

// How many packets a sender has placed, once it has ended.
fn placed_by<R: Threads>(rt: &R, sender: JoinHandle<Port>) -> u64 {
    sender.join(rt).share().packets
}

// Takes turns until enough has arrived, and the gauge has read a row. Answers how many packets have arrived.
fn take_turns<P: Ledger, B: Ledger, R: Wait + Abort>(
    rt: &R,
    alloc: Global,
    booked: &Mutex<Booked<P, B>>,
    drain: &mut Drain<P, B>,
    traffic: &Traffic,
) -> u64 {
    for _turn in 0..10_000_000u64 {
        take_turn(rt, alloc, booked, drain, 0, 8);
        let arrived = row(rt, booked).arrived.packets;
        if arrived >= ARRIVED && traffic.read() > 0 {
            return arrived;
        }
        thread::yield_now();
    }
    panic!(rt; "too few arrived, or no row was read");
}

// A thread in which a sender offers.
fn offer_beside<R: Threads + Abort>(
    rt: &R,
    traffic: &Arc<Traffic, Global>,
    ports: &mut Vec<Port>,
    given: Packet,
) -> JoinHandle<Port> {
    let port = ports.pop().expect(rt, "a port");
    let traffic = Arc::try_clone(traffic).expect(rt, "a count");
    thread::spawn(rt, move || traffic.offer_on(port, given)).expect(rt, "a thread")
}
