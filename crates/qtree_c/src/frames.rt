//! Packets arrive by their first bytes.
ghost use Rattle.std.specs.Prelude.{◌≡◌, ◌≤◌, ◌<◌};
ghost use Rattle.q_packet.specs.Head.{head};
ghost use Rattle.q_packet.specs.Key.{key_bytes};
ghost use Rattle.q_packet.specs.OneAtATime.{one_at_a_time};
ghost use Rattle.qtree_c.specs.device.Calls.{IsArrival};
ghost use Rattle.q_device.specs.device.Bursts.{arrival};
ghost use Rattle.qtree_c.specs.abi.Structs.{framed};
ghost use Rattle.qtree_c.specs.events.Noting.{noting, one_event};
ghost use Rattle.qtree_c.specs.frames.Frames.{IsFrameArrival};

pub(crate) mod ethernet;
pub(crate) mod heads;
pub(crate) mod marks;

use crate::abi::c_device::CDevice;
use crate::abi::codes::{IS_CLOSED, MEMORY, OUT_OF_RANGE};
use crate::device::arrivals::fate_number;
use crate::device::opened::Opened;
use crate::device::steps;
use q_packet::{FlowHash, Head, Moment, OneAtATime, Packet, StoredPacket, read_head};

/// A packet arrives that has these first bytes, and this hash of its flow.
#[unsafe(no_mangle)]
pub extern "C" fn qtree_arrive_frame(
    device: &mut CDevice,
    bytes: &[u8],
    len: u16,
    buf: u32,
    hash: u32,
    now: u64,
) -> u32
    ensures { IsFrameArrival (framed len buf 0 hash (head bytes.now)) now result device.old.held device.new.held }
{
    arrive_frame(device, bytes, len, buf, 0, hash, now)
}

/// The same, of a packet that has this number.
#[unsafe(no_mangle)]
pub extern "C" fn qtree_arrive_frame_numbered(
    device: &mut CDevice,
    bytes: &[u8],
    len: u16,
    buf: u32,
    number: u64,
    hash: u32,
    now: u64,
) -> u32
    ensures { IsFrameArrival (framed len buf number hash (head bytes.now)) now result device.old.held device.new.held }
{
    arrive_frame(device, bytes, len, buf, number, hash, now)
}

/// A packet arrives that has these first bytes, whose flow is hashed with this seed.
#[unsafe(no_mangle)]
pub extern "C" fn qtree_arrive_frame_seeded(
    device: &mut CDevice,
    bytes: &[u8],
    len: u16,
    buf: u32,
    seed: u32,
    now: u64,
) -> u32
    ensures { IsFrameArrival (framed len buf 0 (one_at_a_time seed (key_bytes (head bytes.now).key)) (head bytes.now)) now result device.old.held device.new.held }
{
    let Some(now) = Moment::new(now) else {
        return OUT_OF_RANGE;
    };
    if !device.is_open() {
        return IS_CLOSED;
    }
    let head = read_head(bytes);
    let hash = OneAtATime { seed }.hash(&head.key);
    arrive(device.held.lend(), &head, len, buf, 0, hash, now)
}

/// A packet arrives that has these first bytes, this number, and this hash of its flow.
#[inline(always)]
fn arrive_frame(
    device: &mut CDevice,
    bytes: &[u8],
    len: u16,
    buf: u32,
    number: u64,
    hash: u32,
    now: u64,
) -> u32
    ensures { IsFrameArrival (framed len buf number hash (head bytes.now)) now result device.old.held device.new.held }
{
    let Some(now) = Moment::new(now) else {
        return OUT_OF_RANGE;
    };
    if !device.is_open() {
        return IS_CLOSED;
    }
    arrive(
        device.held.lend(),
        &read_head(bytes),
        len,
        buf,
        number,
        hash,
        now,
    )
}

/// A packet with this head arrives at an open device.
#[inline(always)]
fn arrive(
    opened: &mut Opened,
    head: &Head,
    len: u16,
    buf: u32,
    number: u64,
    hash: u32,
    now: Moment,
) -> u32
    requires { head.now.prio ≤ 15 }
    ensures arrival { IsArrival (framed len buf number hash head.now) now result opened.old.device opened.new.device }
    ensures len { result ≡ 42 → len ≡ 0 }
    ensures noted { result ≤ 6 → opened.new.last ≡ noting (one_event (arrival now (framed len buf number hash head.now)) opened.old.device) opened.old.last }
    ensures unnoted { 6 < result → opened.new.last ≡ opened.old.last }
{
    let Some(packet) = Packet::new(0, number, buf, len, head.key, hash, head.prio, head.ecn) else {
        return OUT_OF_RANGE;
    };
    match steps::arrive(opened, &StoredPacket::of(&packet), now) {
        Ok(fate) => fate_number(fate),
        Err(_) => MEMORY,
    }
}
