//! The device is polled.
ghost use Rattle.std.specs.Prelude.{◌≡◌, ◌≤◌, ◌<◌, ◌^◌};
ghost use Rattle.q_model.specs.declared.event.Event.TheVariants as event;
ghost use Rattle.qtree_c.specs.device.Calls.{Calls, IsPoll};
ghost use Rattle.qtree_c.specs.device.Folds.{IsPolls};
ghost use Rattle.qtree_c.specs.events.Noting.{one_event, poll_events, Notes};
ghost use Rattle.q_packet.specs.Stored.{stored_of};

use crate::abi::c_device::CDevice;
use crate::abi::codes::{IS_CLOSED, OUT_OF_RANGE};
use crate::device::giving::{poll, poll_many};
use q_packet::{Moment, StoredPacket};

/// Takes the packet whose turn it is.
#[unsafe(no_mangle)]
pub extern "C" fn qtree_poll(device: &mut CDevice, now: u64, packet: &mut StoredPacket) -> u32
    ensures poll { now ≤ 2 ^ 62 → Calls (IsPoll stored_of now result packet.old packet.new) result device.old.held.device device.new.held.device }
    ensures moment { 2 ^ 62 < now → (result ≡ 42) × (device.new.held.device ≡ device.old.held.device) }
    ensures kept { 42 ≤ result → packet.new ≡ packet.old }
    ensures noted { result ≤ 31 → Notes (one_event (event.Poll now)) device.old.held.device device.old.held.last device.new.held.last }
    ensures unnoted { 42 ≤ result → device.new.held.last ≡ device.old.held.last }
{
    let Some(now) = Moment::new(now) else {
        return OUT_OF_RANGE;
    };
    if !device.is_open() {
        return IS_CLOSED;
    }
    poll(device.held.lend(), now, packet)
}

/// Polls until there are as many packets as places, or to the first poll that gives none.
#[unsafe(no_mangle)]
pub extern "C" fn qtree_poll_many(
    device: &mut CDevice,
    now: u64,
    packets: &mut [StoredPacket],
    count: &mut usize,
) -> u32
    ensures polls { now ≤ 2 ^ 62 → Calls (IsPolls stored_of now result count.new packets.old packets.new) result device.old.held.device device.new.held.device }
    ensures moment { 2 ^ 62 < now → (result ≡ 42) × (device.new.held.device ≡ device.old.held.device) }
    ensures kept { 42 ≤ result → (packets.new ≡ packets.old) × (count.new ≡ 0) }
    ensures noted { result ≤ 31 → Notes (poll_events now result count.new) device.old.held.device device.old.held.last device.new.held.last }
    ensures unnoted { 42 ≤ result → device.new.held.last ≡ device.old.held.last }
{
    *count = 0;
    let Some(now) = Moment::new(now) else {
        return OUT_OF_RANGE;
    };
    if !device.is_open() {
        return IS_CLOSED;
    }
    let (given, code) = poll_many(device.held.lend(), packets, now);
    *count = given;
    code
}
