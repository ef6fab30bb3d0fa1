//! The events that a device recorded.
ghost use Rattle.std.specs.Prelude.{◌≡◌, ◌≢◌};
ghost use Rattle.qtree_c.specs.device.Calls.{Calls, IsCountOfEvents, IsRecorded};

use crate::abi::c_device::CDevice;
use crate::abi::c_event::CEvent;
use crate::abi::codes::{DONE, IS_CLOSED, NOTHING};
use q_device::Device;

/// How many events there were, and how many of them are recorded.
#[unsafe(no_mangle)]
pub extern "C" fn qtree_events(device: &mut CDevice, events: &mut u64, recorded: &mut usize) -> u32
    ensures events { Calls (IsCountOfEvents result events.new recorded.new) result device.old.held.device device.new.held.device }
    ensures same { device.new.held.device ≡ device.old.held.device }
    ensures last { device.new.held.last ≡ device.old.held.last }
    ensures closed { result ≡ 50 → (events.new ≡ 0) × (recorded.new ≡ 0) }
{
    *events = 0;
    *recorded = 0;
    if !device.is_open() {
        return IS_CLOSED;
    }
    let opened = &device.held.lend().device;
    *events = opened.events();
    *recorded = opened.recorded().len();
    DONE
}

/// A recorded event, by its index from 0.
#[unsafe(no_mangle)]
pub extern "C" fn qtree_recorded(device: &mut CDevice, index: usize, event: &mut CEvent) -> u32
    ensures event { Calls (IsRecorded index result event.old event.new) result device.old.held.device device.new.held.device }
    ensures same { device.new.held.device ≡ device.old.held.device }
    ensures last { device.new.held.last ≡ device.old.held.last }
    ensures kept { result ≢ 0 → event.new ≡ event.old }
{
    if !device.is_open() {
        return IS_CLOSED;
    }
    recorded(&device.held.lend().device, index, event)
}

/// A recorded event of an open device.
fn recorded(device: &Device, index: usize, event: &mut CEvent) -> u32
    ensures event { IsRecorded index result event.old event.new device.now device.now }
    ensures kept { result ≢ 0 → event.new ≡ event.old }
{
    match device.recorded().get(index) {
        Some(found) => {
            *event = CEvent::of(found);
            DONE
        }
        None => NOTHING,
    }
}
