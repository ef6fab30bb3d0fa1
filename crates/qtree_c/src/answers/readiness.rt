//! When a poll next gives a packet.
ghost use Rattle.std.specs.Prelude.{◌≡◌, ◌≢◌};
ghost use Rattle.qtree_c.specs.answers.Readiness.{IsReady};
ghost use Rattle.qtree_c.specs.device.Calls.{Calls};

use crate::abi::c_device::CDevice;
use crate::abi::codes::{DONE, IS_CLOSED, NOTHING};
use q_device::Device;

/// The time before which no poll gives a packet, as things are. A poll at that time need not give one.
#[unsafe(no_mangle)]
pub extern "C" fn qtree_ready_at(device: &mut CDevice, moment: &mut u64) -> u32
    ensures ready { Calls (IsReady result moment.old moment.new) result device.old.held.device device.new.held.device }
    ensures same { device.new.held.device ≡ device.old.held.device }
    ensures last { device.new.held.last ≡ device.old.held.last }
    ensures kept { result ≢ 0 → moment.new ≡ moment.old }
{
    if !device.is_open() {
        return IS_CLOSED;
    }
    ready_at(&device.held.lend().device, moment)
}

/// The time before which no poll of an open device gives a packet.
fn ready_at(device: &Device, moment: &mut u64) -> u32
    ensures ready { IsReady result moment.old moment.new device.now device.now }
    ensures kept { result ≢ 0 → moment.new ≡ moment.old }
{
    match device.ready_at() {
        Some(at) => {
            *moment = at.ns();
            DONE
        }
        None => NOTHING,
    }
}
