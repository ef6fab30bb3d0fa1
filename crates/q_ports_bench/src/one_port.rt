ghost use Rattle.std.specs.Prelude.{◌≡◌};
ghost use Rattle.q_model.specs.Tally.{no_totals};
ghost use Rattle.q_ports.specs.Held.{held};

use crate::{device, span_since};
use q_device::Device;
use q_packet::{KeptPacket, Moment, Packet};
use q_ports::{Booked, Drain, Port, Seat, open_ports};
use std::alloc::Global;
use std::marker::Brand;
use std::sync::ledger::{Blank, Ledger};
use std::sync::{Mutex, Wait};
use std::time::{Clock, Instant};

/// The packets that fit the ring, and are offered and taken in one stretch.
pub const RING: usize = 4096;

/// The packets of a turn.
pub const MOST: usize = 64;

/// The stretches that are timed.
pub const STRETCHES: usize = 64;

/// The packets of all stretches.
pub const PACKETS: usize = RING * STRETCHES;

/// The turns that find nothing.
pub const IDLE_TURNS: usize = 4096;

/// Nanoseconds; all are 0 if an allocation failed, or a packet did not go through.
#[derive(Clone, Copy)]
pub struct Spans {
    /// Of all offers.
    pub offers: u64,
    /// Of as many packets that are offered [`MOST`] at once.
    pub offers_of_many: u64,
    /// Of all turns that take those packets.
    pub turns: u64,
    /// Of the turns that find nothing, each of which publishes to a gauge as every turn does.
    pub idle_turns: u64,
}

/// What nothing was timed of.
pub const NO_SPANS: Spans = Spans {
    offers: 0,
    offers_of_many: 0,
    turns: 0,
    idle_turns: 0,
};

/// Times offers into one ring, of a packet and of many, and turns that take them, in stretches, and then turns that find nothing.
pub fn offers_and_turns<R: Wait + Clock>(rt: &R, alloc: Global, given: Packet) -> Spans {
    let Some(device) = device(alloc) else {
        return NO_SPANS;
    };
    let (packets, bytes) = (Blank::new(65), Blank::new(65));
    booked::<Brand, Brand, R>(rt, alloc, device, given, packets, bytes)
}

fn booked<P: Ledger, B: Ledger, R: Wait + Clock>(
    rt: &R,
    alloc: Global,
    device: Device,
    given: Packet,
    packets: Blank,
    bytes: Blank,
) -> Spans
    requires nothing { device.device.tree.top.arrived ≡ no_totals }
    requires packets { (packets.name ≡ P.name) × (packets.parts ≡ P.parts) × (P.parts ≡ 65) }
    requires bytes { (bytes.name ≡ B.name) × (bytes.parts ≡ B.parts) × (B.parts ≡ 65) }
{
    let (booked, seat) = Booked::<P, B>::new(device, packets, bytes);
    let lock = Mutex::new(booked);
    opened(rt, alloc, &lock, seat, given)
}

fn opened<P: Ledger, B: Ledger, R: Wait + Clock>(
    rt: &R,
    alloc: Global,
    lock: &Mutex<Booked<P, B>>,
    seat: Seat<P, B>,
    given: Packet,
) -> Spans
    requires { seat ≡ held 65 0 0 }
{
    let Ok((drain, ports, _gauges)) = open_ports(rt, alloc, seat, 1, RING, 1) else {
        return NO_SPANS;
    };
    let (mut drain, mut ports) = (drain, ports);
    let spans = match ports.first_mut() {
        Some(port) => stretches(rt, alloc, lock, &mut drain, port, given),
        None => NO_SPANS,
    };
    drain.end(rt);
    spans
}

fn stretches<P: Ledger, B: Ledger, R: Wait + Clock>(
    rt: &R,
    alloc: Global,
    lock: &Mutex<Booked<P, B>>,
    drain: &mut Drain<P, B>,
    port: &mut Port,
    given: Packet,
) -> Spans {
    let mut spans = NO_SPANS;
    for _ in 0..STRETCHES {
        let Some(offers) = timed_offers(rt, port, given, RING) else {
            return NO_SPANS;
        };
        let Some(turns) = timed_turns(rt, alloc, lock, drain, RING, RING) else {
            return NO_SPANS;
        };
        let Some(offers_of_many) = timed_offers_of_many(rt, port, given, RING) else {
            return NO_SPANS;
        };
        if take_all(rt, alloc, lock, drain, RING) != RING {
            return NO_SPANS;
        }
        spans.offers = spans.offers.saturating_add(offers);
        spans.offers_of_many = spans.offers_of_many.saturating_add(offers_of_many);
        spans.turns = spans.turns.saturating_add(turns);
    }
    match timed_turns(rt, alloc, lock, drain, IDLE_TURNS * MOST, 0) {
        Some(idle_turns) => Spans {
            idle_turns,
            ..spans
        },
        None => NO_SPANS,
    }
}

/// The nanoseconds in which so many packets are offered; `None` where one was not placed, or the clock could not be read.
pub fn timed_offers<C: Clock>(
    clock: &C,
    port: &mut Port,
    given: Packet,
    count: usize,
) -> Option<u64> {
    let start = Instant::now(clock).ok()?;
    if !offer_all(port, given, count) {
        return None;
    }
    span_since(clock, &start)
}

/// The same of as many packets that are offered [`MOST`] at once.
fn timed_offers_of_many<C: Clock>(
    clock: &C,
    port: &mut Port,
    given: Packet,
    count: usize,
) -> Option<u64> {
    let packets = [KeptPacket::of(&given); MOST];
    let start = Instant::now(clock).ok()?;
    for _ in 0..count / MOST {
        if port.offer_many_kept(&packets) < MOST {
            return None;
        }
    }
    span_since(clock, &start)
}

/// The nanoseconds of the turns that so many packets fill; `None` where not just `wanted` were sent, or the clock could not be read.
fn timed_turns<P: Ledger, B: Ledger, R: Wait + Clock>(
    rt: &R,
    alloc: Global,
    lock: &Mutex<Booked<P, B>>,
    drain: &mut Drain<P, B>,
    count: usize,
    wanted: usize,
) -> Option<u64> {
    let start = Instant::now(rt).ok()?;
    if take_all(rt, alloc, lock, drain, count) != wanted {
        return None;
    }
    span_since(rt, &start)
}

/// Offers so many packets; whether each was placed.
fn offer_all(port: &mut Port, given: Packet, count: usize) -> bool {
    for _ in 0..count {
        if port.offer(given).is_err() {
            return false;
        }
    }
    true
}

/// Takes turns that so many packets fill; how many packets were sent.
pub fn take_all<P: Ledger, B: Ledger, R: Wait>(
    rt: &R,
    alloc: Global,
    lock: &Mutex<Booked<P, B>>,
    drain: &mut Drain<P, B>,
    count: usize,
) -> usize {
    let mut sent = 0usize;
    for _ in 0..count / MOST {
        let Ok(turn) = drain.turn(rt, alloc, lock, Moment::zero(), MOST) else {
            return 0;
        };
        sent = sent.saturating_add(turn.sent.len());
    }
    sent
}
