//! A device is opened and closed.
ghost use Rattle.std.specs.Prelude.{◌≡◌, ◌≢◌, None, IsSome, IfSome};
ghost use Rattle.q_device.specs.device.DeviceSeen.{opened};
ghost use Rattle.q_model.specs.Settings.{IsInRange};
ghost use Rattle.qtree_c.specs.abi.Structs.{settings_of};

use crate::abi::c_device::CDevice;
use crate::abi::c_settings::CSettings;
use crate::abi::codes::{DONE, IS_OPEN, MEMORY, OUT_OF_RANGE};
use crate::device::opened::Opened;
use q_device::{Device, Settings};
use std::alloc::Global;

/// Opens a device in a closed place.
#[unsafe(no_mangle)]
pub extern "C" fn qtree_open(alloc: Global, device: &mut CDevice, settings: &CSettings) -> u32
    ensures is_open { IsSome device.old.held.device → result ≡ 51 }
    ensures out_of_range { result ≡ 42 → device.old.held.device ≡ None }
    ensures opened { result ≡ 0 → IsSome device.new.held.device }
    ensures new { result ≡ 0 → IfSome device.new.held.device (λ d. d ≡ opened (settings_of settings.now) d.memory) }
    ensures in_range { result ≡ 0 → IsInRange (settings_of settings.now) }
    ensures taken { device.old.held.device ≡ None → IsInRange (settings_of settings.now) → result ≢ 42 }
    ensures memory { result ≡ 90 → IsInRange (settings_of settings.now) }
    ensures same { result ≢ 0 → device.new.held.device ≡ device.old.held.device }
    ensures codes { device.old.held.device ≡ None → result ≢ 0 → result ≢ 42 → result ≡ 90 }
    ensures last { result ≡ 0 → device.new.held.last ≡ None }
    ensures same_last { result ≢ 0 → device.new.held.last ≡ device.old.held.last }
{
    if device.is_open() {
        return IS_OPEN;
    }
    let Some(settings) = Settings::new(settings.mtu, settings.txqueuelen, settings.recorder) else {
        return OUT_OF_RANGE;
    };
    let Ok(new) = Device::open(alloc, settings) else {
        return MEMORY;
    };
    let opened = Opened {
        device: new,
        last: None,
    };
    let Ok(boxed) = Box::new(alloc, opened) else {
        return MEMORY;
    };
    device.put(boxed);
    DONE
}

/// Closes a place; nothing happens where it is closed.
#[unsafe(no_mangle)]
pub extern "C" fn qtree_close(alloc: Global, device: &mut CDevice)
    ensures { device.new.held.device ≡ None }
{
    let _ = device.take(alloc);
}
