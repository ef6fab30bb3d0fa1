use crate::one_port::{MOST, RING, STRETCHES};
use crate::{device, span_since};
use q_device::{Device, Given, SOME_KEPT};
use q_packet::{KeptPacket, Moment, Packet};
use std::alloc::Global;
use std::time::{Clock, Instant};

/// The nanoseconds of the calls that turns of 64 make on a device: arrivals of packets that are in a list, and as many polls. `None`
/// if an allocation failed, a packet did not go through, or the clock could not be read.
pub fn calls_of_turns<C: Clock>(clock: &C, alloc: Global, given: Packet) -> Option<u64> {
    let mut device = device(alloc)?;
    timed_on(clock, alloc, &mut device, given)
}

/// The same on this device.
fn timed_on<C: Clock>(clock: &C, alloc: Global, device: &mut Device, given: Packet) -> Option<u64> {
    let packets = vec![in alloc; KeptPacket::of(&given); RING].ok()?;
    timed(clock, device, packets.as_slice())
}

fn timed<C: Clock>(clock: &C, device: &mut Device, packets: &[KeptPacket]) -> Option<u64> {
    let start = Instant::now(clock).ok()?;
    for _ in 0..STRETCHES {
        if !pass(device, packets) {
            return None;
        }
    }
    span_since(clock, &start)
}

/// Lets packets arrive 64 at a time, and polls as often after each; whether all were sent.
fn pass(device: &mut Device, packets: &[KeptPacket]) -> bool {
    let mut out = SOME_KEPT;
    for turn in packets.chunks(MOST) {
        for packet in turn {
            if device.arrive_kept(packet, Moment::zero()).is_err() {
                return false;
            }
        }
        for _ in 0..turn.len() {
            match device.poll_kept(Moment::zero(), &mut out) {
                Given::Packet => {}
                Given::Idle | Given::Later => return false,
            }
        }
    }
    true
}
