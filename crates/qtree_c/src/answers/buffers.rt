//! How many packets a device can hold.
ghost use Rattle.std.specs.Prelude.{◌≡◌, ◌≢◌};
ghost use Rattle.qtree_c.specs.answers.Buffers.{IsMost};
ghost use Rattle.qtree_c.specs.device.Calls.{Calls};

use crate::abi::c_device::CDevice;
use crate::abi::codes::{DONE, IS_CLOSED};

/// The most packets that can be queued, now and while no command is done.
#[unsafe(no_mangle)]
pub extern "C" fn qtree_most_packets(device: &mut CDevice, packets: &mut u64) -> u32
    ensures most { Calls (IsMost result packets.new) result device.old.held.device device.new.held.device }
    ensures same { device.new.held.device ≡ device.old.held.device }
    ensures last { device.new.held.last ≡ device.old.held.last }
    ensures kept { result ≢ 0 → packets.new ≡ packets.old }
{
    if !device.is_open() {
        return IS_CLOSED;
    }
    let most = device.held.lend().device.most_packets();
    *packets = most;
    DONE
}
