//! Packets arrive.
ghost use Rattle.std.specs.Prelude.{◌≡◌, ◌≢◌, ◌≤◌, ◌<◌, ◌^◌, length, map, take};
ghost use Rattle.q_device.specs.device.DeviceSeen.{HasRoomFor};
ghost use Rattle.q_device.specs.DeviceLaws.{HasItsMemory};
ghost use Rattle.q_model.specs.Step.{counts_at};
ghost use Rattle.q_device.specs.device.Room.{StaysButForPlaces};
ghost use Rattle.qtree_c.specs.device.Calls.{Calls, IsArrival};
ghost use Rattle.q_device.specs.device.Answers.{fate_number};
ghost use Rattle.q_device.specs.device.Bursts.{arrival};
ghost use Rattle.qtree_c.specs.abi.Structs.{IsPacket};
ghost use Rattle.qtree_c.specs.device.Folds.{IsArrivals};
ghost use Rattle.qtree_c.specs.events.Noting.{arrival_events, noting, one_event, Notes};
ghost use Rattle.q_packet.specs.Stored.{descriptor, IsStored};

use crate::abi::c_device::CDevice;
use crate::abi::c_packet::is_packet;
use crate::abi::codes::{DONE, IS_CLOSED, MEMORY, OUT_OF_RANGE, ROOM};
use crate::device::opened::Opened;
use crate::device::steps;
use crate::events::noting::note_arrivals;
use q_device::{Fate, Stopped};
use q_packet::{Moment, StoredPacket};

/// A packet arrives.
#[unsafe(no_mangle)]
pub extern "C" fn qtree_arrive(device: &mut CDevice, packet: &StoredPacket, now: u64) -> u32
    ensures arrival { now ≤ 2 ^ 62 → Calls (IsArrival packet.now now result) result device.old.held.device device.new.held.device }
    ensures moment { 2 ^ 62 < now → (result ≡ 42) × (device.new.held.device ≡ device.old.held.device) }
    ensures noted { result ≤ 6 → Notes (one_event (arrival now packet.now)) device.old.held.device device.old.held.last device.new.held.last }
    ensures unnoted { 6 < result → device.new.held.last ≡ device.old.held.last }
{
    let Some(now) = Moment::new(now) else {
        return OUT_OF_RANGE;
    };
    if !device.is_open() {
        return IS_CLOSED;
    }
    arrive(device.held.lend(), packet, now)
}

/// Packets arrive in order, all at the same time, to the first that is out of its range or for which an allocation fails.
#[unsafe(no_mangle)]
pub extern "C" fn qtree_arrive_many(
    device: &mut CDevice,
    packets: &[StoredPacket],
    codes: &mut [u8],
    done: &mut usize,
    now: u64,
) -> u32
    ensures arrivals { now ≤ 2 ^ 62 → length packets.now ≤ length codes.old →
        Calls (IsArrivals now packets.now result done.new codes.old codes.new) result device.old.held.device device.new.held.device }
    ensures moment { 2 ^ 62 < now → (result ≡ 42) × (done.new ≡ 0) × (device.new.held.device ≡ device.old.held.device) }
    ensures room { now ≤ 2 ^ 62 → length codes.old < length packets.now → (result ≡ 43) × (done.new ≡ 0) × (device.new.held.device ≡ device.old.held.device) }
    ensures moment_kept { 2 ^ 62 < now → codes.new ≡ codes.old }
    ensures room_kept { result ≡ 43 → codes.new ≡ codes.old }
    ensures closed_kept { result ≡ 50 → (done.new ≡ 0) × (codes.new ≡ codes.old) }
    ensures noted { 1 ≤ done.new → Notes (arrival_events now (map descriptor (take done.new packets.now))) device.old.held.device device.old.held.last device.new.held.last }
    ensures unnoted { done.new ≡ 0 → device.new.held.last ≡ device.old.held.last }
{
    *done = 0;
    let Some(now) = Moment::new(now) else {
        return OUT_OF_RANGE;
    };
    if codes.len() < packets.len() {
        return ROOM;
    }
    if !device.is_open() {
        return IS_CLOSED;
    }
    let (arrived, code) = arrive_many(device.held.lend(), packets, codes, now);
    *done = arrived;
    code
}

/// A packet arrives at an open device.
#[inline(always)]
fn arrive(opened: &mut Opened, packet: &StoredPacket, now: Moment) -> u32
    ensures arrival { IsArrival packet.now now result opened.old.device opened.new.device }
    ensures full { result ≡ 90 → HasItsMemory opened.old.device × StaysButForPlaces opened.old.device opened.new.device }
    ensures no_room { result ≡ 90 → HasRoomFor (descriptor packet.now) opened.old.device → ⊥ }
    ensures codes { result ≢ 50 }
    ensures room { result ≢ 43 }
    ensures noted { result ≤ 6 → opened.new.last ≡ noting (one_event (arrival now packet.now) opened.old.device) opened.old.last }
    ensures unnoted { 6 < result → opened.new.last ≡ opened.old.last }
    ensures clock { result ≤ 6 → opened.new.device.device.clock ≡ counts_at now opened.old.device.device }
{
    if !is_packet(packet) {
        return OUT_OF_RANGE;
    }
    match steps::arrive(opened, packet, now) {
        Ok(fate) => fate_number(fate),
        Err(_) => MEMORY,
    }
}

/// Packets arrive at an open device.
fn arrive_many(
    opened: &mut Opened,
    packets: &[StoredPacket],
    codes: &mut [u8],
    now: Moment,
) -> (usize, u32)
    requires { length packets.now ≤ length codes.old }
    ensures arrivals { IsArrivals now packets.now result.1 result.0 codes.old codes.new opened.old.device opened.new.device }
    ensures answer { result.1 ≢ 50 }
    ensures room { result.1 ≢ 43 }
    ensures noted { opened.new.last ≡ noting (arrival_events now (map descriptor (take result.0 packets.now)) opened.old.device) opened.old.last }
{
    let (done, stopped) = opened.device.arrive_many(packets, codes, now);
    note_arrivals(&mut opened.last, &opened.device, &packets[..done]);
    let Some(why) = stopped else {
        return (done, DONE);
    };
    match why {
        Stopped::OutOfRange => (done, out_of_range(&packets[done])),
        Stopped::Memory => (done, MEMORY),
    }
}

// The number for a packet that has a field out of its range.
fn out_of_range(packet: &StoredPacket) -> u32
    requires { IsStored packet.now → ⊥ }
    ensures code { result ≡ 42 }
    ensures packet { IsPacket packet.now → ⊥ }
{
    // That a half of an address fits its field is known where it is read.
    let _ = is_packet(packet);
    OUT_OF_RANGE
}

/// The number of a fate: 0, or the cause's.
pub fn fate_number(fate: Fate) -> u32
    ensures value { result ≡ fate_number fate }
    ensures few { result ≤ 6 }
{
    match fate {
        Fate::Kept => DONE,
        Fate::Lost(cause) => cause.number() as u32,
    }
}
