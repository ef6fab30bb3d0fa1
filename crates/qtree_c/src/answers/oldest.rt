//! Since when packets wait.
ghost use Rattle.std.specs.Prelude.{◌≡◌, ◌≢◌};
ghost use Rattle.qtree_c.specs.abi.Structs.{place_of, IsPlaceOf};
ghost use Rattle.qtree_c.specs.answers.Oldest.{IsOldest};
ghost use Rattle.qtree_c.specs.device.Calls.{Calls};

use crate::abi::c_device::CDevice;
use crate::abi::codes::{DONE, IS_CLOSED, NOTHING, OUT_OF_RANGE};
use crate::answers::counters::place_at;
use q_device::Place;

/// When the packet arrived that has been queued longest in a place.
#[unsafe(no_mangle)]
pub extern "C" fn qtree_oldest(
    device: &mut CDevice,
    place: u32,
    major: u16,
    minor: u16,
    moment: &mut u64,
) -> u32
    ensures oldest { IsPlaceOf place major minor → Calls (IsOldest (place_of place major minor) result moment.old moment.new) result device.old.held.device device.new.held.device }
    ensures out_of_range { result ≢ 42 → IsPlaceOf place major minor }
    ensures same { device.new.held.device ≡ device.old.held.device }
    ensures last { device.new.held.last ≡ device.old.held.last }
    ensures kept { result ≢ 0 → moment.new ≡ moment.old }
{
    let Some(place) = place_at(place, major, minor) else {
        return OUT_OF_RANGE;
    };
    oldest_at(device, place, moment)
}

/// When the oldest packet of the device in this place arrived.
fn oldest_at(device: &mut CDevice, place: Place, moment: &mut u64) -> u32
    ensures oldest { Calls (IsOldest place result moment.old moment.new) result device.old.held.device device.new.held.device }
    ensures same { device.new.held.device ≡ device.old.held.device }
    ensures last { device.new.held.last ≡ device.old.held.last }
    ensures kept { result ≢ 0 → moment.new ≡ moment.old }
    ensures codes { result ≢ 42 }
{
    if !device.is_open() {
        return IS_CLOSED;
    }
    let oldest = device.held.lend().device.oldest(place);
    match oldest {
        Some(at) => {
            *moment = at.ns();
            DONE
        }
        None => NOTHING,
    }
}
