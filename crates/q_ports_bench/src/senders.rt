ghost use Rattle.std.specs.Prelude.{◌≡◌};
ghost use Rattle.q_model.specs.Tally.{no_totals};
ghost use Rattle.q_ports.specs.Held.{held};

use crate::{device, span_since};
use q_device::Device;
use q_packet::{Moment, Packet};
use q_ports::{Booked, Gate, Seat, Unsettled, drive, open_ports};
use std::alloc::{AllocError, Global};
use std::marker::Brand;
use std::sync::ledger::{Blank, Ledger};
use std::sync::{Mutex, Wait};
use std::thread::Threads;
use std::time::{Clock, Instant};

/// The packets that fit each ring.
const RING: usize = 1024;

/// The nanoseconds between two turns.
const STEP: u64 = 1000;

/// How often a packet is offered.
const TRIES: u64 = 1_000_000_000;

/// A gate that holds nobody up.
struct FreeGate;

impl Gate for FreeGate {
    fn before_offer(&self, _port: u32, _nth: u64) {}

    fn after_offer(&self, _port: u32, _nth: u64) {}
}

/// The nanoseconds in which so many senders, 1 to 64, place so many packets each; `None` for other numbers, where a packet is given
/// up, and if an allocation failed or the clock could not be read.
pub fn drive_all<R: Threads + Wait + Sync + Clock>(
    rt: &R,
    alloc: Global,
    given: Packet,
    senders: usize,
    each: usize,
) -> Option<u64> {
    let loads = loads(alloc, given, senders, each).ok()?;
    let from = Instant::now(rt).ok()?;
    match driven(rt, alloc, loads) {
        Some(0) => span_since(rt, &from),
        _ => None,
    }
}

/// How many packets were given up of these loads on a new device; `None` as of [`booked`], or if an allocation for the device failed.
fn driven<R: Threads + Wait + Sync + Clock>(
    rt: &R,
    alloc: Global,
    loads: Vec<Vec<Packet>>,
) -> Option<u64> {
    let (packets, bytes) = (Blank::new(65), Blank::new(65));
    match device(alloc) {
        Some(device) => booked::<Brand, Brand, R>(rt, alloc, device, loads, packets, bytes),
        None => None,
    }
}

/// A load for each sender.
fn loads(
    alloc: Global,
    given: Packet,
    senders: usize,
    each: usize,
) -> Result<Vec<Vec<Packet>>, AllocError> {
    let mut loads = Vec::new(alloc);
    for _sender in 0..senders {
        loads.push(vec![in alloc; given; each]?)?;
    }
    Ok(loads)
}

/// How many packets were given up; `None` if an allocation failed, or there are not 1 to 64 loads.
fn booked<P: Ledger + Send + Sync, B: Ledger + Send + Sync, R: Threads + Wait + Sync + Clock>(
    rt: &R,
    alloc: Global,
    device: Device,
    loads: Vec<Vec<Packet>>,
    packets: Blank,
    bytes: Blank,
) -> Option<u64>
    requires nothing { device.device.tree.top.arrived ≡ no_totals }
    requires packets { (packets.name ≡ P.name) × (packets.parts ≡ P.parts) × (P.parts ≡ 65) }
    requires bytes { (bytes.name ≡ B.name) × (bytes.parts ≡ B.parts) × (B.parts ≡ 65) }
{
    let (booked, seat) = Booked::<P, B>::new(device, packets, bytes);
    let lock = Mutex::new(booked);
    opened(rt, alloc, &lock, seat, loads)
}

fn opened<P: Ledger + Send + Sync, B: Ledger + Send + Sync, R: Threads + Wait + Sync + Clock>(
    rt: &R,
    alloc: Global,
    lock: &Mutex<Booked<P, B>>,
    seat: Seat<P, B>,
    loads: Vec<Vec<Packet>>,
) -> Option<u64>
    requires seat { seat ≡ held 65 0 0 }
    requires parts { (P.parts ≡ 65) × (B.parts ≡ 65) }
{
    let count = loads.len();
    if count < 1 || count > 64 {
        return None;
    }
    let Ok((drain, ports, _gauges)) = open_ports(rt, alloc, seat, count, RING, 0) else {
        return None;
    };
    let start = Moment::zero();
    match drive(
        rt, alloc, lock, drain, ports, loads, &FreeGate, start, STEP, TRIES,
    ) {
        Ok(driven) => Some(driven.given_up),
        Err(
            Unsettled {
                drain,
                ports: _ports,
            },
        ) => {
            drain.end(rt);
            None
        }
    }
}
