//! How late polls may be while a class's promise holds.
ghost use Rattle.std.specs.Prelude.{◌≡◌, ◌≢◌};
ghost use Rattle.q_device.specs.promises.Promise.{promise_seen};
ghost use Rattle.qtree_c.specs.abi.Structs.{place_of, IsPlaceOf};
ghost use Rattle.qtree_c.specs.answers.Lateness.{lateness_of, IsLateness};
ghost use Rattle.qtree_c.specs.device.Calls.{Calls};

use crate::abi::c_device::CDevice;
use crate::abi::codes::{DONE, IS_CLOSED, NOTHING, OUT_OF_RANGE};
use crate::answers::counters::place_at;
use q_device::{Place, Service};

/// How many nanoseconds polls may be late while the class in a place gets what it is promised.
#[unsafe(no_mangle)]
pub extern "C" fn qtree_lateness(
    device: &mut CDevice,
    place: u32,
    major: u16,
    minor: u16,
    late: &mut u64,
) -> u32
    ensures late { IsPlaceOf place major minor → Calls (IsLateness (place_of place major minor) result late.old late.new) result device.old.held.device device.new.held.device }
    ensures out_of_range { result ≢ 42 → IsPlaceOf place major minor }
    ensures same { device.new.held.device ≡ device.old.held.device }
    ensures last { device.new.held.last ≡ device.old.held.last }
    ensures kept { result ≢ 0 → late.new ≡ late.old }
{
    let Some(place) = place_at(place, major, minor) else {
        return OUT_OF_RANGE;
    };
    lateness_at(device, place, late)
}

/// How late polls may be for the class of the device in this place.
fn lateness_at(device: &mut CDevice, place: Place, late: &mut u64) -> u32
    ensures late { Calls (IsLateness place result late.old late.new) result device.old.held.device device.new.held.device }
    ensures same { device.new.held.device ≡ device.old.held.device }
    ensures last { device.new.held.last ≡ device.old.held.last }
    ensures kept { result ≢ 0 → late.new ≡ late.old }
    ensures codes { result ≢ 42 }
{
    if !device.is_open() {
        return IS_CLOSED;
    }
    let service = device.held.lend().device.service(place);
    match service {
        Some(service) => {
            *late = lateness_of(&service);
            DONE
        }
        None => NOTHING,
    }
}

/// How late polls may be for this promise to hold. The greatest number is any lateness: no tbf is at the root.
fn lateness_of(service: &Service) -> u64
    ensures { result ≡ lateness_of (promise_seen service.now) }
{
    service.late.unwrap_or(u64::MAX)
}
