ghost use Rattle.std.specs.Prelude.{◌≡◌};
ghost use Rattle.q_model.specs.Tally.{no_totals};
ghost use Rattle.q_ports.specs.Held.{held};

use crate::device;
use crate::one_port::{take_all, timed_offers};
use q_device::Device;
use q_packet::Packet;
use q_ports::{Booked, Drain, Port, Seat, open_ports};
use std::alloc::Global;
use std::marker::Brand;
use std::sync::ledger::{Blank, Ledger};
use std::sync::{Mutex, Wait};
use std::thread::{self, Threads};
use std::time::Clock;

/// The packets that fit each ring: enough that filling it takes many times what starting a thread does.
const RING: usize = 65_536;

/// How often the rings are filled that are timed.
const STRETCHES: usize = 4;

/// The packets of one sender in all stretches.
pub const PACKETS_OF_ONE: usize = RING * STRETCHES;

/// The packets of all stretches and senders.
pub const PACKETS: usize = 4 * PACKETS_OF_ONE;

/// Two ports.
type Pair = (Port, Port);

/// Nanoseconds, summed over the stretches; both are 0 where a packet could not be placed.
#[derive(Clone, Copy)]
pub struct Fills {
    /// Of one sender that fills its ring alone.
    pub alone: u64,
    /// Of the slowest of four senders that fill theirs at once.
    pub at_once: u64,
}

/// What nothing was timed of.
pub const NO_FILLS: Fills = Fills {
    alone: 0,
    at_once: 0,
};

/// Times one sender that fills its ring, and then four at once, each on a thread of its own, while nobody takes.
pub fn offers_at_once<R: Threads + Wait + Sync + Clock>(
    rt: &R,
    alloc: Global,
    given: Packet,
) -> Fills {
    let Some(device) = device(alloc) else {
        return NO_FILLS;
    };
    let (packets, bytes) = (Blank::new(65), Blank::new(65));
    booked::<Brand, Brand, R>(rt, alloc, device, given, packets, bytes)
}

fn booked<P: Ledger, B: Ledger, R: Threads + Wait + Sync + Clock>(
    rt: &R,
    alloc: Global,
    device: Device,
    given: Packet,
    packets: Blank,
    bytes: Blank,
) -> Fills
    requires nothing { device.device.tree.top.arrived ≡ no_totals }
    requires packets { (packets.name ≡ P.name) × (packets.parts ≡ P.parts) × (P.parts ≡ 65) }
    requires bytes { (bytes.name ≡ B.name) × (bytes.parts ≡ B.parts) × (B.parts ≡ 65) }
{
    let (booked, seat) = Booked::<P, B>::new(device, packets, bytes);
    let lock = Mutex::new(booked);
    opened(rt, alloc, &lock, seat, given)
}

fn opened<P: Ledger, B: Ledger, R: Threads + Wait + Sync + Clock>(
    rt: &R,
    alloc: Global,
    lock: &Mutex<Booked<P, B>>,
    seat: Seat<P, B>,
    given: Packet,
) -> Fills
    requires { seat ≡ held 65 0 0 }
{
    let Ok((drain, ports, _gauges)) = open_ports(rt, alloc, seat, 4, RING, 0) else {
        return NO_FILLS;
    };
    let mut drain = drain;
    let fills = match pairs(ports) {
        Some(ports) => stretches(rt, alloc, lock, &mut drain, ports, given),
        None => NO_FILLS,
    };
    drain.end(rt);
    fills
}

/// Four ports, two by two.
fn pairs(ports: Vec<Port>) -> Option<(Pair, Pair)> {
    let mut ports = ports;
    let one = ports.pop()?;
    let two = ports.pop()?;
    let three = ports.pop()?;
    let four = ports.pop()?;
    Some(((one, two), (three, four)))
}

fn stretches<P: Ledger, B: Ledger, R: Threads + Wait + Sync + Clock>(
    rt: &R,
    alloc: Global,
    lock: &Mutex<Booked<P, B>>,
    drain: &mut Drain<P, B>,
    ports: (Pair, Pair),
    given: Packet,
) -> Fills {
    let mut ports = ports;
    let mut fills = NO_FILLS;
    // The first stretch, in which each place is written for the first time, is not timed.
    for nth in 0..=STRETCHES {
        let (next, found) = stretch(rt, alloc, lock, drain, ports, given);
        ports = next;
        match found {
            Some(found) if nth > 0 => {
                fills.alone = fills.alone.saturating_add(found.alone);
                fills.at_once = fills.at_once.saturating_add(found.at_once);
            }
            Some(_) => {}
            None => return NO_FILLS,
        }
    }
    fills
}

/// One sender and then four at once, and turns that take what they placed. `None` where not all was placed and sent, or the clock
/// could not be read.
fn stretch<P: Ledger, B: Ledger, R: Threads + Wait + Sync + Clock>(
    rt: &R,
    alloc: Global,
    lock: &Mutex<Booked<P, B>>,
    drain: &mut Drain<P, B>,
    ports: (Pair, Pair),
    given: Packet,
) -> ((Pair, Pair), Option<Fills>) {
    let ((one, second), right) = ports;
    let (one, alone) = fill(rt, one, given);
    let sent = take_all(rt, alloc, lock, drain, RING);
    let (ports, at_once) = fill_all(rt, ((one, second), right), given);
    let all_sent = take_all(rt, alloc, lock, drain, 4 * RING);
    let found = match (alone, at_once) {
        (Some(alone), Some(at_once)) if sent == RING && all_sent == 4 * RING => {
            Some(Fills { alone, at_once })
        }
        _ => None,
    };
    (ports, found)
}

/// Fills four rings at once; the nanoseconds of the slowest.
fn fill_all<R: Threads + Sync + Clock>(
    rt: &R,
    ports: (Pair, Pair),
    given: Packet,
) -> ((Pair, Pair), Option<u64>) {
    let (left, right) = ports;
    let ((left, one), (right, other)) = thread::join(
        rt,
        move || fill_pair(rt, left, given),
        move || fill_pair(rt, right, given),
    );
    ((left, right), slower(one, other))
}

fn slower(one: Option<u64>, other: Option<u64>) -> Option<u64> {
    match (one, other) {
        (Some(one), Some(other)) => Some(one.max(other)),
        _ => None,
    }
}

/// Fills two rings at once, each on a thread of its own; the nanoseconds of the slower one.
fn fill_pair<R: Threads + Sync + Clock>(rt: &R, ports: Pair, given: Packet) -> (Pair, Option<u64>) {
    let (one, other) = ports;
    let ((one, first), (other, second)) = thread::join(
        rt,
        move || fill(rt, one, given),
        move || fill(rt, other, given),
    );
    ((one, other), slower(first, second))
}

/// Fills a ring; its nanoseconds, where each packet was placed and the clock was read.
fn fill<C: Clock>(clock: &C, port: Port, given: Packet) -> (Port, Option<u64>) {
    let mut port = port;
    let span = timed_offers(clock, &mut port, given, RING);
    (port, span)
}
