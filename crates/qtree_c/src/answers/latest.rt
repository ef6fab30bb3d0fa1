//! By when the last packet of a fifo has left.
ghost use Rattle.std.specs.Prelude.{◌≡◌, ◌≢◌};
ghost use Rattle.qtree_c.specs.abi.Structs.{place_of, IsPlaceOf};
ghost use Rattle.qtree_c.specs.answers.Departures.{IsDeparture};
ghost use Rattle.qtree_c.specs.device.Calls.{Calls};

use crate::abi::c_departure::CDeparture;
use crate::abi::c_device::CDevice;
use crate::abi::codes::{DONE, IS_CLOSED, NOTHING, OUT_OF_RANGE};
use crate::answers::counters::place_at;
use q_device::Place;

/// By when a packet of this length has left, if the device's next event is that it comes to the fifo in a place; for a length of 0 by when the packet
/// has left that was queued there last. The fifo is one that no other packet overtakes, or that of a class of a drr at the root or below a tbf at the
/// root.
#[unsafe(no_mangle)]
pub extern "C" fn qtree_latest(
    device: &mut CDevice,
    place: u32,
    major: u16,
    minor: u16,
    len: u16,
    departure: &mut CDeparture,
) -> u32
    ensures departure { IsPlaceOf place major minor →
        Calls (IsDeparture (place_of place major minor) len result departure.old departure.new) result device.old.held.device device.new.held.device }
    ensures out_of_range { result ≢ 42 → IsPlaceOf place major minor }
    ensures same { device.new.held.device ≡ device.old.held.device }
    ensures last { device.new.held.last ≡ device.old.held.last }
    ensures kept { result ≢ 0 → departure.new ≡ departure.old }
{
    let Some(place) = place_at(place, major, minor) else {
        return OUT_OF_RANGE;
    };
    latest_at(device, place, len, departure)
}

/// By when a packet of this length has left that comes next to the fifo of the device in this place.
fn latest_at(device: &mut CDevice, place: Place, len: u16, departure: &mut CDeparture) -> u32
    ensures departure { Calls (IsDeparture place len result departure.old departure.new) result device.old.held.device device.new.held.device }
    ensures same { device.new.held.device ≡ device.old.held.device }
    ensures last { device.new.held.last ≡ device.old.held.last }
    ensures kept { result ≢ 0 → departure.new ≡ departure.old }
    ensures codes { result ≢ 42 }
{
    if !device.is_open() {
        return IS_CLOSED;
    }
    let answer = device.held.lend().device.latest(place, len);
    match answer {
        Some(answer) => {
            *departure = CDeparture::of(&answer);
            DONE
        }
        None => NOTHING,
    }
}
