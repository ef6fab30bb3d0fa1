//! What the tests share: devices and packets, and what they ask of a drain.
ghost use Rattle.std.specs.Prelude.{◌≡◌, ◌<◌, ◌≤◌, length, map, IfSome};
ghost use Rattle.q_model.specs.Tally.{no_totals};
ghost use Rattle.q_ports.specs.Placed.{ring_of_port};
ghost use Rattle.q_ports.specs.Rings.{ring_id};
ghost use Rattle.q_ports.specs.Rows.{shown_on};

use q_device::{Device, Row, Settings, Totals};
use q_packet::{Ecn, FlowKey, Moment, Packet};
use q_ports::{Booked, Drain, Full, Gate, Port, Turn, Unsettled, drive};
use std::alloc::{AllocError, Global};
use std::process::Abort;
use std::sync::ledger::Ledger;
use std::sync::{Mutex, Wait};
use std::thread::Threads;

/// A device at which nothing has arrived, with room for so many packets, which records so many events. `None` if an allocation fails.
pub fn limited(alloc: Global, limit: u32, recorded: u32) -> Option<Device>
    ensures { IfSome result (λ d. d.device.tree.top.arrived ≡ no_totals) }
{
    Device::open(alloc, Settings::new(1514, limit, recorded)?).ok()
}

/// A packet of 100 bytes with this number.
pub fn packet(number: u64) -> Option<Packet> {
    let key = FlowKey::new(0, 0, 0, 0, 0, 0)?;
    Packet::new(7, number, 0, 100, key, 0, 0, Ecn::NotEct)
}

/// So many packets of 100 bytes.
pub fn hundreds(packets: u64) -> Totals {
    Totals {
        packets,
        bytes: packets.saturating_mul(100),
    }
}

/// A load for each of so many ports: this packet so many times.
pub fn loads(
    alloc: Global,
    ports: usize,
    each: usize,
    given: Packet,
) -> Result<Vec<Vec<Packet>>, AllocError> {
    let mut loads = Vec::with_capacity(alloc, ports)?;
    for _port in 0..ports {
        loads.push(vec![in alloc; given; each]?)?;
    }
    Ok(loads)
}

/// As many were counted as wanted. It is asked here, since an assert is dear to prove in a test that owns much.
pub fn assert_count<R: Abort>(rt: &R, found: u64, wanted: u64) {
    assert_eq!(rt; found, wanted);
}

/// The same of packets and bytes.
pub fn assert_totals<R: Abort>(rt: &R, found: Totals, wanted: Totals) {
    assert_eq!(rt; found, wanted);
}

/// Offers a packet at one of the ports.
pub fn offer_at(ports: &mut Vec<Port>, at: usize, packet: Packet) -> Result<(), Full>
    requires { at < length ports.old.items }
    ensures rings { map ring_of_port ports.new.items ≡ map ring_of_port ports.old.items }
    ensures count { length ports.new.items ≡ length ports.old.items }
{
    offer(&mut ports[at], packet)
}

/// Places so many packets at one of the ports, in whose ring there is room for them.
pub fn fill<R: Abort>(rt: &R, ports: &mut Vec<Port>, at: usize, count: u64, packet: Packet)
    requires { at < length ports.old.items }
    ensures rings { map ring_of_port ports.new.items ≡ map ring_of_port ports.old.items }
    ensures count { length ports.new.items ≡ length ports.old.items }
{
    for _offer in 0..count {
        assert!(rt; offer_at(ports, at, packet).is_ok());
    }
}

/// The ring of the first port has no room for a packet, which is given back.
pub fn assert_full<R: Abort>(rt: &R, ports: &mut Vec<Port>, packet: Packet)
    requires { 0 < length ports.old.items }
    ensures rings { map ring_of_port ports.new.items ≡ map ring_of_port ports.old.items }
    ensures count { length ports.new.items ≡ length ports.old.items }
{
    assert_eq!(rt; offer_at(ports, 0, packet), Err(Full(packet)));
}

/// A turn at this time, of so many packets at most.
pub fn turn<P: Ledger, B: Ledger, R: Wait + Abort>(
    rt: &R,
    alloc: Global,
    booked: &Mutex<Booked<P, B>>,
    drain: &mut Drain<P, B>,
    now: u64,
    most: usize,
) -> Turn
    requires { (1 ≤ most) × (most ≤ 1024) }
    ensures rings { map ring_id drain.new.rings ≡ map ring_id drain.old.rings }
    ensures book { drain.new.board.book ≡ drain.old.board.book }
    ensures told { IfSome result.told (λ f. f ≡ shown_on drain.new.board) }
{
    match drain.turn(rt, alloc, booked, moment(now), most) {
        Ok(turn) => turn,
        Err(_) => panic!(rt; "memory"),
    }
}

/// Such a turn, of which nobody asks what it did.
pub fn take_turn<P: Ledger, B: Ledger, R: Wait + Abort>(
    rt: &R,
    alloc: Global,
    booked: &Mutex<Booked<P, B>>,
    drain: &mut Drain<P, B>,
    now: u64,
    most: usize,
)
    requires { (1 ≤ most) × (most ≤ 1024) }
    ensures { map ring_id drain.new.rings ≡ map ring_id drain.old.rings }
{
    let _turn = turn(rt, alloc, booked, drain, now, most);
}

/// The row of the device.
pub fn row<P: Ledger, B: Ledger, R: Wait>(rt: &R, booked: &Mutex<Booked<P, B>>) -> Row {
    booked.lock(rt).totals()
}

/// Settles at this time, and answers how much was placed at the ports. `None` if an allocation fails. The caller asserts it where it owns
/// nothing of this, since each way out is dear to prove beside it.
pub fn settled_at<P: Ledger, B: Ledger, R: Wait>(
    rt: &R,
    booked: &Mutex<Booked<P, B>>,
    drain: Drain<P, B>,
    ports: Vec<Port>,
    now: u64,
) -> Option<Totals>
    requires parts { (P.parts ≡ 65) × (B.parts ≡ 65) }
    requires ports { map ring_of_port ports.items ≡ map ring_id drain.rings }
{
    match drain.settle(rt, booked, ports, moment(now)) {
        Ok(settled) => Some(settled.share()),
        Err(
            Unsettled {
                drain,
                ports: _ports,
            },
        ) => {
            drain.end(rt);
            None
        }
    }
}

/// The time of this nanosecond, or of 0 where there is none so late.
pub fn moment(now: u64) -> Moment {
    match Moment::new(now) {
        Some(moment) => moment,
        None => Moment::zero(),
    }
}

/// Drives the device from 0 on, and answers how much was settled and how many packets were given up.
pub fn driven_all<
    P: Ledger + Send + Sync,
    B: Ledger + Send + Sync,
    G: Gate + Sync,
    R: Threads + Wait + Sync + Abort,
>(
    rt: &R,
    alloc: Global,
    booked: &Mutex<Booked<P, B>>,
    drain: Drain<P, B>,
    ports: Vec<Port>,
    loads: Vec<Vec<Packet>>,
    gate: &G,
    step: u64,
    tries: u64,
) -> (Totals, u64)
    requires parts { (P.parts ≡ 65) × (B.parts ≡ 65) }
    requires ports { map ring_of_port ports.items ≡ map ring_id drain.rings }
    requires loads { length loads.items ≡ length ports.items }
{
    let start = Moment::zero();
    match drive(
        rt, alloc, booked, drain, ports, loads, gate, start, step, tries,
    ) {
        Ok(driven) => (driven.settled.share(), driven.given_up),
        Err(unsettled) => {
            unsettled.drain.end(rt);
            panic!(rt; "not settled")
        }
    }
}

// Offers a packet, which leaves the port its ring.
fn offer(port: &mut Port, packet: Packet) -> Result<(), Full>
    ensures { ring_of_port port.new ≡ ring_of_port port.old }
{
    match port.offer(packet) {
        Ok(()) => Ok(()),
        Err(full) => Err(full),
    }
}
