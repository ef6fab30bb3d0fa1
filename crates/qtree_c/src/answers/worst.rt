//! How long a packet of a fifo waits at most.
ghost use Rattle.std.specs.Prelude.{◌≡◌, ◌≢◌};
ghost use Rattle.qtree_c.specs.abi.Structs.{place_of, IsPlaceOf};
ghost use Rattle.qtree_c.specs.answers.Delays.{IsDelay};
ghost use Rattle.qtree_c.specs.device.Calls.{Calls};

use crate::abi::c_delay::CDelay;
use crate::abi::c_device::CDevice;
use crate::abi::codes::{DONE, IS_CLOSED, NOTHING, OUT_OF_RANGE};
use crate::answers::counters::place_at;
use q_device::Place;

/// The longest that a packet waits in the fifo in a place.
#[unsafe(no_mangle)]
pub extern "C" fn qtree_worst(
    device: &mut CDevice,
    place: u32,
    major: u16,
    minor: u16,
    delay: &mut CDelay,
) -> u32
    ensures delay { IsPlaceOf place major minor → Calls (IsDelay (place_of place major minor) result delay.old delay.new) result device.old.held.device device.new.held.device }
    ensures out_of_range { result ≢ 42 → IsPlaceOf place major minor }
    ensures same { device.new.held.device ≡ device.old.held.device }
    ensures last { device.new.held.last ≡ device.old.held.last }
    ensures kept { result ≢ 0 → delay.new ≡ delay.old }
{
    let Some(place) = place_at(place, major, minor) else {
        return OUT_OF_RANGE;
    };
    worst_at(device, place, delay)
}

/// The longest that a packet waits in the fifo of the device in this place.
fn worst_at(device: &mut CDevice, place: Place, delay: &mut CDelay) -> u32
    ensures delay { Calls (IsDelay place result delay.old delay.new) result device.old.held.device device.new.held.device }
    ensures same { device.new.held.device ≡ device.old.held.device }
    ensures last { device.new.held.last ≡ device.old.held.last }
    ensures kept { result ≢ 0 → delay.new ≡ delay.old }
    ensures codes { result ≢ 42 }
{
    if !device.is_open() {
        return IS_CLOSED;
    }
    let answer = device.held.lend().device.worst(place);
    match answer {
        Some(answer) => {
            *delay = CDelay::of(&answer);
            DONE
        }
        None => NOTHING,
    }
}
