//! The device is polled for what a program needs to send a packet on.
ghost use Rattle.std.specs.Prelude.{◌≡◌, ◌≤◌, ◌<◌, ◌^◌};
ghost use Rattle.q_model.specs.declared.event.Event.TheVariants as event;
ghost use Rattle.qtree_c.specs.abi.Structs.{sent_of};
ghost use Rattle.qtree_c.specs.device.Calls.{Calls, IsPoll};
ghost use Rattle.qtree_c.specs.device.Folds.{IsPolls};
ghost use Rattle.qtree_c.specs.events.Noting.{one_event, poll_events, Notes};

use crate::abi::c_device::CDevice;
use crate::abi::c_sent::CSent;
use crate::abi::codes::{IS_CLOSED, OUT_OF_RANGE};
use crate::device::giving::{poll, poll_many};
use q_packet::Moment;

/// Takes the packet whose turn it is, as `qtree_poll` does, and reports what it takes to send it on.
#[unsafe(no_mangle)]
pub extern "C" fn qtree_poll_buf(device: &mut CDevice, now: u64, sent: &mut CSent) -> u32
    ensures poll { now ≤ 2 ^ 62 → Calls (IsPoll sent_of now result sent.old sent.new) result device.old.held.device device.new.held.device }
    ensures moment { 2 ^ 62 < now → (result ≡ 42) × (device.new.held.device ≡ device.old.held.device) }
    ensures kept { 30 ≤ result → sent.new ≡ sent.old }
    ensures noted { result ≤ 31 → Notes (one_event (event.Poll now)) device.old.held.device device.old.held.last device.new.held.last }
    ensures unnoted { 42 ≤ result → device.new.held.last ≡ device.old.held.last }
{
    let Some(now) = Moment::new(now) else {
        return OUT_OF_RANGE;
    };
    if !device.is_open() {
        return IS_CLOSED;
    }
    poll(device.held.lend(), now, sent)
}

/// Polls until there are as many packets as places, or to the first poll that gives none, as `qtree_poll_many` does.
#[unsafe(no_mangle)]
pub extern "C" fn qtree_poll_bufs(
    device: &mut CDevice,
    now: u64,
    sent: &mut [CSent],
    count: &mut usize,
) -> u32
    ensures polls { now ≤ 2 ^ 62 → Calls (IsPolls sent_of now result count.new sent.old sent.new) result device.old.held.device device.new.held.device }
    ensures moment { 2 ^ 62 < now → (result ≡ 42) × (device.new.held.device ≡ device.old.held.device) }
    ensures kept { 42 ≤ result → (sent.new ≡ sent.old) × (count.new ≡ 0) }
    ensures noted { result ≤ 31 → Notes (poll_events now result count.new) device.old.held.device device.old.held.last device.new.held.last }
    ensures unnoted { 42 ≤ result → device.new.held.last ≡ device.old.held.last }
{
    *count = 0;
    let Some(now) = Moment::new(now) else {
        return OUT_OF_RANGE;
    };
    if !device.is_open() {
        return IS_CLOSED;
    }
    let (given, code) = poll_many(device.held.lend(), sent, now);
    *count = given;
    code
}
