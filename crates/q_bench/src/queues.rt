use crate::checksum;
use crate::packets::{blank, sized};
use q_codel::{ControlState, Fifo, Limit, Losses, Parameters};
use q_packet::{KeptPacket, Moment, StoredPacket};
use std::alloc::Global;

/// CoDel's target, in nanoseconds.
const TARGET: u64 = 5_000_000;

/// CoDel's interval, in nanoseconds.
const INTERVAL: u64 = 100_000_000;

/// The longest packet, in bytes.
const MTU: u16 = 1514;

/// Puts a packet into a fifo of `queued` packets and takes one out, for each of `lens`, so many times over.
#[unsafe(no_mangle)]
pub extern "C" fn q_bench_fifo(alloc: Global, queued: u32, lens: &[u16], passes: u32) -> u64 {
    let Some(made) = sized(alloc, lens) else {
        return 0;
    };
    let most = u64::from(queued) + 1;
    let mut queue = Fifo::new(alloc, Limit::Packets(most));
    if fill(&mut queue, queued, made.as_slice()).is_none() {
        return 0;
    }
    pass_through(&mut queue, made.as_slice(), passes).unwrap_or(0)
}

fn pass_through(queue: &mut Fifo, made: &[KeptPacket], passes: u32) -> Option<u64> {
    let now = Moment::zero();
    let mut out = blank()?;
    let mut sum = 1;
    for _ in 0..passes {
        for packet in made {
            put(queue, packet, now)?;
            if queue.take_into(&mut out) == 0 {
                return None;
            }
            sum = checksum::with(sum, summary(&out));
        }
    }
    Some(sum)
}

/// Takes from a fifo of `queued` packets by CoDel, at each time of `moments`, and puts a packet there for each that left, of
/// these lengths round and round.
#[unsafe(no_mangle)]
pub extern "C" fn q_bench_codel(alloc: Global, queued: u32, lens: &[u16], moments: &[u64]) -> u64 {
    let Some(made) = sized(alloc, lens) else {
        return 0;
    };
    let most = u64::from(queued) + 1;
    let mut queue = Fifo::new(alloc, Limit::Packets(most));
    let mut losses = Losses::new(alloc);
    if losses.reserve(queued as usize).is_err() {
        return 0;
    }
    if fill(&mut queue, queued, made.as_slice()).is_none() {
        return 0;
    }
    take_at(&mut queue, &mut losses, made.as_slice(), moments).unwrap_or(0)
}

fn take_at(
    queue: &mut Fifo,
    losses: &mut Losses,
    made: &[KeptPacket],
    moments: &[u64],
) -> Option<u64> {
    let parameters = Parameters::new(TARGET, INTERVAL, MTU, false)?;
    let mut codel = ControlState::new();
    let mut out = blank()?;
    let mut next = 0;
    let mut sum = 1;
    for moment in moments {
        let now = Moment::new(*moment)?;
        if queue.count() > losses.room() {
            return None;
        }
        let _is_marked = codel.take_into(&parameters, queue, now, losses, &mut out)?;
        sum = checksum::with(sum, summary(&out));
        let packet = made.get(next)?;
        put(queue, packet, now)?;
        if losses.count() > 0 {
            sum = put_for_losses(queue, losses, packet, now, sum)?;
        }
        next = if next + 1 < made.len() { next + 1 } else { 0 };
    }
    Some(checksum::with(sum, u64::from(codel.count())))
}

/// Reaps the losses, and puts a packet for each: a function of its own, so that a take without losses saves no registers for it.
#[inline(never)]
fn put_for_losses(
    queue: &mut Fifo,
    losses: &mut Losses,
    packet: &KeptPacket,
    now: Moment,
    before: u64,
) -> Option<u64> {
    let mut sum = before;
    for _ in 0..losses.count() {
        let loss = losses.reap()?;
        sum = checksum::with(sum, summary(&KeptPacket::of(&loss.packet)));
        put(queue, packet, now)?;
    }
    Some(sum)
}

/// Puts so many packets at time 0, round and round: a function of its own, which leaves its registers to what is measured.
#[inline(never)]
fn fill(queue: &mut Fifo, queued: u32, made: &[KeptPacket]) -> Option<()> {
    let mut next = 0;
    for _ in 0..queued {
        put(queue, made.get(next)?, Moment::zero())?;
        next = if next + 1 < made.len() { next + 1 } else { 0 };
    }
    Some(())
}

fn summary(packet: &KeptPacket) -> u64 {
    let StoredPacket {
        src_low,
        port,
        number,
        buf,
        len,
        hash,
        prio,
        ..
    } = packet.stored;
    let place = (u64::from(port) << 32) | u64::from(buf);
    let queue = (u64::from(hash) << 32) | (u64::from(len) << 8) | u64::from(prio);
    number ^ place ^ queue ^ src_low
}

/// Puts a packet at the end; `None` if an allocation fails or the limit is reached.
#[inline(always)]
fn put(queue: &mut Fifo, packet: &KeptPacket, now: Moment) -> Option<()> {
    if queue.reserve().is_err() {
        return None;
    }
    if !queue.fits(packet.len()) {
        return None;
    }
    queue.put_from(packet, now);
    Some(())
}
