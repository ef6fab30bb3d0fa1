//! What a class is promised.
ghost use Rattle.std.specs.Prelude.{◌≡◌, ◌≢◌};
ghost use Rattle.qtree_c.specs.abi.Structs.{place_of, IsPlaceOf};
ghost use Rattle.qtree_c.specs.answers.Promised.{IsPromised};
ghost use Rattle.qtree_c.specs.device.Calls.{Calls};

use crate::abi::c_device::CDevice;
use crate::abi::c_promise::CPromise;
use crate::abi::codes::{DONE, IS_CLOSED, NOTHING, OUT_OF_RANGE};
use crate::answers::counters::place_at;
use q_device::Place;

/// What the class in a place is promised.
#[unsafe(no_mangle)]
pub extern "C" fn qtree_service(
    device: &mut CDevice,
    place: u32,
    major: u16,
    minor: u16,
    promise: &mut CPromise,
) -> u32
    ensures promise { IsPlaceOf place major minor → Calls (IsPromised (place_of place major minor) result promise.old promise.new) result device.old.held.device device.new.held.device }
    ensures out_of_range { result ≢ 42 → IsPlaceOf place major minor }
    ensures same { device.new.held.device ≡ device.old.held.device }
    ensures last { device.new.held.last ≡ device.old.held.last }
    ensures kept { result ≢ 0 → promise.new ≡ promise.old }
{
    let Some(place) = place_at(place, major, minor) else {
        return OUT_OF_RANGE;
    };
    service_at(device, place, promise)
}

/// What the class of the device in this place is promised.
fn service_at(device: &mut CDevice, place: Place, promise: &mut CPromise) -> u32
    ensures promise { Calls (IsPromised place result promise.old promise.new) result device.old.held.device device.new.held.device }
    ensures same { device.new.held.device ≡ device.old.held.device }
    ensures last { device.new.held.last ≡ device.old.held.last }
    ensures kept { result ≢ 0 → promise.new ≡ promise.old }
    ensures codes { result ≢ 42 }
{
    if !device.is_open() {
        return IS_CLOSED;
    }
    let service = device.held.lend().device.service(place);
    match service {
        Some(service) => {
            *promise = CPromise::of(&service);
            DONE
        }
        None => NOTHING,
    }
}
