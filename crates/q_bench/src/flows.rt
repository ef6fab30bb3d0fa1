use crate::checksum;
use crate::packets::{blank, hashed};
use q_codel::Losses;
use q_fqcodel::{FqCodel, Settings};
use q_packet::{KeptPacket, Moment};
use std::alloc::Global;

/// Puts a packet of each of these hashes into an fq_codel of so many flows, so many times over; with `takes` it takes one
/// after each. At first it holds `queued` packets.
#[unsafe(no_mangle)]
pub extern "C" fn q_bench_flows(
    alloc: Global,
    flows: u32,
    limit: u32,
    drop_batch: u32,
    queued: u32,
    takes: bool,
    hashes: &[u32],
    passes: u32,
) -> u64 {
    let Some(settings) = Settings::new(
        limit,
        flows,
        1514,
        5_000_000,
        100_000_000,
        false,
        drop_batch,
        1514,
    ) else {
        return 0;
    };
    let Ok(mut fq) = FqCodel::new(alloc, settings) else {
        return 0;
    };
    let mut losses = Losses::new(alloc);
    let Some(made) = hashed(alloc, hashes) else {
        return 0;
    };
    if fill(&mut fq, &mut losses, queued, made.as_slice()).is_none() {
        return 0;
    }
    pass_through(&mut fq, &mut losses, takes, made.as_slice(), passes).unwrap_or(0)
}

/// Puts so many packets, round and round.
fn fill(fq: &mut FqCodel, losses: &mut Losses, queued: u32, made: &[KeptPacket]) -> Option<()> {
    let mut next = 0;
    for _ in 0..queued {
        put(fq, losses, made.get(next)?)?;
        next = if next + 1 < made.len() { next + 1 } else { 0 };
    }
    Some(())
}

fn pass_through(
    fq: &mut FqCodel,
    losses: &mut Losses,
    takes: bool,
    made: &[KeptPacket],
    passes: u32,
) -> Option<u64> {
    let mut out = blank()?;
    let mut sum = 1;
    for _ in 0..passes {
        for packet in made {
            sum = checksum::with(sum, put(fq, losses, packet)?);
            if takes {
                take(fq, losses, &mut out)?;
                sum = checksum::with(sum, out.stored.number);
            }
            for _ in 0..losses.count() {
                let loss = losses.reap()?;
                let packet = loss.packet;
                sum = checksum::with(sum, packet.number);
            }
        }
    }
    let (packets, bytes) = fq.queued();
    Some(checksum::with(checksum::with(sum, packets), bytes))
}

/// 1 where the packet that is put is itself lost, else 0.
#[inline(always)]
fn put(fq: &mut FqCodel, losses: &mut Losses, packet: &KeptPacket) -> Option<u64> {
    let settings = fq.settings();
    if fq.reserve().is_err() || losses.reserve(settings.drop_batch as usize).is_err() {
        return None;
    }
    Some(u64::from(fq.put_from(packet, Moment::zero(), losses)))
}

/// Takes a packet into `out`.
#[inline(always)]
fn take(fq: &mut FqCodel, losses: &mut Losses, out: &mut KeptPacket) -> Option<()> {
    let (packets, _) = fq.queued();
    if losses.reserve(packets as usize).is_err() {
        return None;
    }
    let sent = fq.take_into(Moment::zero(), out, losses);
    if sent.len == 0 {
        return None;
    }
    Some(())
}
