//! Times the ports for the benchmark in `bench/`: given the word `times`, it prints eleven lines, each with a number of nanoseconds,
//! and of packets or turns; else it does nothing.
//!
//! They are those of an offer, of a packet of 64 that are offered at once, of a turn of 64, of the same calls on a device alone, of a
//! turn that finds nothing, of one sender that fills a long ring and of four at once, and of `drive` with 1, 4, 16 and 64 senders, all
//! into a root pfifo. A static library may not wait, so that these are timed here, and not beside the other workloads (`q_bench`). The
//! time is 0 where an allocation failed or a thread was refused, a packet did not arrive, or the clock could not be read.
//!
//! - [`one_port`]: offers and turns on one thread.
//! - [`device_alone`]: the calls of those turns.
//! - [`four_ports`]: offers on four threads.
//! - [`senders`]: a thread for each port, and the drain.
#![tactic(auto)]

ghost use Rattle.std.specs.Prelude.{◌≡◌, IfSome};
ghost use Rattle.q_model.specs.Tally.{no_totals};

mod device_alone;
mod four_ports;
mod one_port;
mod senders;

use crate::device_alone::calls_of_turns;
use crate::four_ports::offers_at_once;
use crate::one_port::{IDLE_TURNS, offers_and_turns};
use crate::senders::drive_all;
use q_device::{Device, Settings};
use q_packet::{Ecn, FlowKey, Packet};
use std::alloc::Global;
use std::sync::Wait;
use std::thread::Threads;
use std::time::{Clock, Instant};
use std::{env, io};

/// The packets of all senders together.
const SENT: usize = 262_144;

fn main(rt: HostRuntime) -> io::Result<()> {
    let words: Vec<String> = env::args(&rt)?.collect(rt.alloc())?;
    let is_asked = words.len() == 2;
    drop(words);
    if !is_asked {
        return Ok(());
    }
    let alloc = rt.alloc();
    let Some(given) = packet() else {
        return Ok(());
    };
    for (span, count) in spans(&rt, alloc, given) {
        println!(rt; "{span} {count}")?;
    }
    Ok(())
}

/// The nanoseconds of each line, and of how many packets or turns they are.
fn spans<R: Threads + Wait + Sync + Clock>(
    rt: &R,
    alloc: Global,
    given: Packet,
) -> [(u64, usize); 11] {
    let spans = offers_and_turns(rt, alloc, given);
    let calls = calls_of_turns(rt, alloc, given).unwrap_or(0);
    let fills = offers_at_once(rt, alloc, given);
    [
        (spans.offers, one_port::PACKETS),
        (spans.offers_of_many, one_port::PACKETS),
        (spans.turns, one_port::PACKETS),
        (calls, one_port::PACKETS),
        (spans.idle_turns, IDLE_TURNS),
        (fills.alone, four_ports::PACKETS_OF_ONE),
        (fills.at_once, four_ports::PACKETS),
        (drive_span(rt, alloc, given, 1, SENT), SENT),
        (drive_span(rt, alloc, given, 4, SENT / 4), SENT),
        (drive_span(rt, alloc, given, 16, SENT / 16), SENT),
        (drive_span(rt, alloc, given, 64, SENT / 64), SENT),
    ]
}

/// The nanoseconds of a drive of so many senders, or 0.
fn drive_span<R: Threads + Wait + Sync + Clock>(
    rt: &R,
    alloc: Global,
    given: Packet,
    senders: usize,
    each: usize,
) -> u64 {
    drive_all(rt, alloc, given, senders, each).unwrap_or(0)
}

/// A device with a root pfifo at which nothing has arrived, in which all packets fit.
fn device(alloc: Global) -> Option<Device>
    ensures { IfSome result (λ d. d.device.tree.top.arrived ≡ no_totals) }
{
    Device::open(alloc, Settings::new(1514, 1_000_000, 0)?).ok()
}

fn packet() -> Option<Packet> {
    let key = FlowKey::new(4, 17, 0x0a00_0001, 0x0a00_0002, 1000, 5000)?;
    Packet::new(0, 0, 2, 1000, key, 3, 0, Ecn::NotEct)
}

/// The nanoseconds since then; `None` where the clock could not be read.
pub fn span_since<C: Clock>(clock: &C, start: &Instant) -> Option<u64> {
    u64::try_from(start.elapsed(clock).ok()?.as_nanos()).ok()
}
