use crate::checksum;
use crate::packets::Plan;
use crate::trees::{Shape, Tree, set_up};
use q_device::{Device, Fate, Given, Row, Settings, Totals};
use q_model::{ClassId, Handle, Minor, Place};
use q_packet::{KeptPacket, Moment};
use std::alloc::Global;

/// The longest packet, in bytes.
const MTU: u16 = 1514;

/// The packets that fit a pfifo of which no line says more.
const TXQUEUELEN: u32 = 200_000;

/// The packets that fit an fq_codel, by default and where more are queued at first.
const DEFAULT_LIMIT: u32 = 10_240;

const LARGE_LIMIT: u32 = 200_000;

/// The nanoseconds between the packets that are queued at first.
const STEP: u32 = 100;

/// The most losses of two packets and one poll.
const MOST_LOST: u32 = 1000;

/// Where the clock of a device and the checksum are once its first packets are queued.
#[derive(Clone, Copy)]
struct Begun {
    now: Moment,
    sum: u64,
}

/// A tree that is set up on a device, and how many of the packets, which come round and round, are queued in it at first.
#[derive(Clone, Copy)]
struct Load<'a> {
    shape: u32,
    tree: Tree,
    queued: u32,
    made: &'a [KeptPacket],
}

/// What happens once the first packets are queued.
#[derive(Clone, Copy)]
enum Passes<'a> {
    /// A packet and a poll by turns: the nanoseconds between packets, and how often all of them come.
    Pairs(u32, u32),
    /// Two packets, a poll and what was lost by turns: the nanoseconds before each poll.
    Losses(&'a [u32]),
}

/// Sets a tree up on a device, and lets `queued` packets arrive there. Then each packet of the plan arrives, so many
/// nanoseconds after the one before, and the device is polled after it, so many times over. Nothing may be lost.
#[unsafe(no_mangle)]
pub extern "C" fn q_bench_pairs(
    alloc: Global,
    shape: u32,
    flows: u32,
    drop_batch: u32,
    ecn: bool,
    queued: u32,
    hashes: &[u32],
    prios: &[u8],
    ports: &[u16],
    step: u32,
    passes: u32,
) -> u64 {
    let plan = Plan {
        hashes,
        prios,
        ports,
        ecn,
    };
    let tree = Tree {
        limit: limit_for(queued),
        flows,
        drop_batch,
        ecn,
    };
    passed(
        alloc,
        shape,
        tree,
        queued,
        plan,
        Passes::Pairs(step, passes),
    )
}

fn pass_pairs(device: &mut Device, load: Load, step: u32, passes: u32) -> Option<u64> {
    let Begun { mut now, mut sum } = queue_up(device, load)?;
    let mut out = *load.made.first()?;
    for _ in 0..passes {
        for packet in load.made {
            now = Moment::new(now.ns() + u64::from(step))?;
            sum = checksum::with(sum, arrive(device, packet, now)?);
            sum = checksum::with(sum, poll(device, now, &mut out));
        }
    }
    with_counts(device, sum)
}

/// The same, but two packets arrive before each poll, and what is lost is reaped after it. Of each poll `waits` says how
/// many nanoseconds it is after the one before.
#[unsafe(no_mangle)]
pub extern "C" fn q_bench_losses(
    alloc: Global,
    shape: u32,
    flows: u32,
    drop_batch: u32,
    ecn: bool,
    queued: u32,
    hashes: &[u32],
    prios: &[u8],
    ports: &[u16],
    waits: &[u32],
) -> u64 {
    let plan = Plan {
        hashes,
        prios,
        ports,
        ecn,
    };
    let tree = Tree {
        limit: limit_for(queued),
        flows,
        drop_batch,
        ecn,
    };
    passed(alloc, shape, tree, queued, plan, Passes::Losses(waits))
}

fn pass_losses(device: &mut Device, load: Load, waits: &[u32]) -> Option<u64> {
    let Begun { mut now, mut sum } = queue_up(device, load)?;
    let mut out = *load.made.first()?;
    let mut next = 0;
    for wait in waits {
        now = Moment::new(now.ns() + u64::from(*wait))?;
        let (first, second) = (load.made.get(next)?, load.made.get(next + 1)?);
        sum = checksum::with(sum, arrive(device, first, now)?);
        sum = checksum::with(sum, arrive(device, second, now)?);
        sum = checksum::with(sum, poll(device, now, &mut out));
        sum = reap(device, sum);
        next = if next + 3 < load.made.len() {
            next + 2
        } else {
            0
        };
    }
    with_counts(device, sum)
}

/// The loop of [`q_bench_pairs`] without a device: what it would answer of each packet is what it would answer of a wire.
#[unsafe(no_mangle)]
pub extern "C" fn q_bench_harness(
    alloc: Global,
    hashes: &[u32],
    prios: &[u8],
    ports: &[u16],
    step: u32,
    passes: u32,
) -> u64 {
    let plan = Plan {
        hashes,
        prios,
        ports,
        ecn: false,
    };
    let Some(made) = plan.made(alloc) else {
        return 0;
    };
    pass_wire(made.as_slice(), step, passes).unwrap_or(0)
}

fn pass_wire(made: &[KeptPacket], step: u32, passes: u32) -> Option<u64> {
    let mut now = Moment::zero();
    let mut sum = 1;
    for _ in 0..passes {
        for packet in made {
            now = Moment::new(now.ns() + u64::from(step))?;
            sum = checksum::with(sum, now.ns());
            sum = checksum::with(sum, summary(packet));
        }
    }
    Some(sum)
}

/// The packets that fit an fq_codel: Linux's default, or so many that all that are queued at first do.
fn limit_for(queued: u32) -> u32 {
    if queued <= DEFAULT_LIMIT {
        DEFAULT_LIMIT
    } else {
        LARGE_LIMIT
    }
}

/// The checksum of all that happens on a new device; 0 where something failed.
fn passed(alloc: Global, shape: u32, tree: Tree, queued: u32, plan: Plan, passes: Passes) -> u64 {
    let Some(made) = plan.made(alloc) else {
        return 0;
    };
    let load = Load {
        shape,
        tree,
        queued,
        made: made.as_slice(),
    };
    pass_on_new(alloc, load, passes).unwrap_or(0)
}

fn pass_on_new(alloc: Global, load: Load, passes: Passes) -> Option<u64> {
    let mut device = opened(alloc)?;
    let sum = pass(&mut device, load, passes);
    close(device);
    sum
}

/// Drops a device. Each way on which a function does so is a part of its proof, so that one function does it for all.
fn close(_device: Device) {}

fn pass(device: &mut Device, load: Load, passes: Passes) -> Option<u64> {
    match passes {
        Passes::Pairs(step, passes) => pass_pairs(device, load, step, passes),
        Passes::Losses(waits) => pass_losses(device, load, waits),
    }
}

/// A device without a tree.
fn opened(alloc: Global) -> Option<Device> {
    Device::open(alloc, Settings::new(MTU, TXQUEUELEN, 0)?).ok()
}

/// Sets up the tree, and lets the first packets arrive, round and round.
fn queue_up(device: &mut Device, load: Load) -> Option<Begun> {
    set_up(device, Shape::of(load.shape)?, load.tree)?;
    let mut now = Moment::zero();
    let mut sum = 1;
    let mut next = 0;
    for _ in 0..load.queued {
        now = Moment::new(now.ns() + u64::from(STEP))?;
        sum = checksum::with(sum, arrive(device, load.made.get(next)?, now)?);
        next = if next + 1 < load.made.len() {
            next + 1
        } else {
            0
        };
    }
    Some(Begun { now, sum })
}

/// The number of the cause where the packet is lost, else 0.
fn arrive(device: &mut Device, packet: &KeptPacket, now: Moment) -> Option<u64> {
    match device.arrive_kept(packet, now) {
        Ok(Fate::Kept) => Some(0),
        Ok(Fate::Lost(cause)) => Some(u64::from(cause.number())),
        Err(_) => None,
    }
}

/// The summary of the packet that a poll writes to `out`, or what it says where there is none.
fn poll(device: &mut Device, now: Moment, out: &mut KeptPacket) -> u64 {
    match device.poll_kept(now, out) {
        Given::Packet => summary(out),
        Given::Idle => 1 << 60,
        Given::Later => 2 << 60,
    }
}

fn summary(packet: &KeptPacket) -> u64 {
    let stored = &packet.stored;
    stored.number
        ^ u64::from(stored.hash) << 16
        ^ u64::from(stored.len) << 32
        ^ u64::from(stored.ecn) << 48
}

/// The checksum with the number of each packet that was lost, and why.
fn reap(device: &mut Device, sum: u64) -> u64 {
    let mut sum = sum;
    for _ in 0..MOST_LOST {
        let Some(lost) = device.reap() else {
            return sum;
        };
        sum = checksum::with(
            sum,
            lost.packet.number ^ u64::from(lost.cause.number()) << 32,
        );
    }
    sum
}

/// The checksum with what was counted at the device, the root and the class 1:1.
fn with_counts(device: &Device, sum: u64) -> Option<u64> {
    let class = ClassId {
        major: Handle::new(1)?,
        minor: Minor::new(1)?,
    };
    let sum = with_row(sum, &device.totals());
    let sum = with_row(sum, &device.stats(Place::Root)?);
    match device.stats(Place::Class(class)) {
        Some(row) => Some(with_row(sum, &row)),
        None => Some(sum),
    }
}

fn with_row(sum: u64, row: &Row) -> u64 {
    let sum = with_totals(sum, row.arrived);
    let sum = with_totals(sum, row.sent);
    let sum = with_totals(sum, row.refused);
    let sum = with_totals(sum, row.dropped);
    let sum = with_totals(sum, row.queued);
    with_totals(sum, row.marked)
}

fn with_totals(sum: u64, totals: Totals) -> u64 {
    checksum::with(checksum::with(sum, totals.packets), totals.bytes)
}
