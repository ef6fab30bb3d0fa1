//! What nodes counted.
ghost use Rattle.std.specs.Prelude.{◌≡◌, ◌≢◌, ◌≤◌, ◌↔◌, IsSome, IfSome};
ghost use Rattle.q_model.specs.declared.place.Place.TheVariants as place;
ghost use Rattle.qtree_c.specs.abi.Structs.{place_of, IsPlaceOf};
ghost use Rattle.qtree_c.specs.device.Calls.{Calls, IsRow};

use crate::abi::c_device::CDevice;
use crate::abi::c_row::CRow;
use crate::abi::codes::{DONE, IS_CLOSED, NOTHING, OUT_OF_RANGE};
use q_device::Place;
use q_model::{ClassId, Handle, Minor};

/// What the node in a place counted.
#[unsafe(no_mangle)]
pub extern "C" fn qtree_stats(
    device: &mut CDevice,
    place: u32,
    major: u16,
    minor: u16,
    row: &mut CRow,
) -> u32
    ensures row { IsPlaceOf place major minor → Calls (IsRow (place_of place major minor) result row.old row.new) result device.old.held.device device.new.held.device }
    ensures out_of_range { result ≢ 42 → IsPlaceOf place major minor }
    ensures same { device.new.held.device ≡ device.old.held.device }
    ensures last { device.new.held.last ≡ device.old.held.last }
    ensures kept { 42 ≤ result → row.new ≡ row.old }
{
    let Some(place) = place_at(place, major, minor) else {
        return OUT_OF_RANGE;
    };
    stats_at(device, place, row)
}

/// What the device itself counted.
#[unsafe(no_mangle)]
pub extern "C" fn qtree_totals(device: &mut CDevice, row: &mut CRow) -> u32
    ensures row { Calls (IsRow place.Top result row.old row.new) result device.old.held.device device.new.held.device }
    ensures same { device.new.held.device ≡ device.old.held.device }
    ensures last { device.new.held.last ≡ device.old.held.last }
    ensures kept { 42 ≤ result → row.new ≡ row.old }
{
    stats_at(device, Place::Top, row)
}

/// What a node of the device in this place counted.
fn stats_at(device: &mut CDevice, place: Place, row: &mut CRow) -> u32
    ensures row { Calls (IsRow place result row.old row.new) result device.old.held.device device.new.held.device }
    ensures same { device.new.held.device ≡ device.old.held.device }
    ensures last { device.new.held.last ≡ device.old.held.last }
    ensures kept { 42 ≤ result → row.new ≡ row.old }
    ensures codes { result ≢ 42 }
{
    if !device.is_open() {
        return IS_CLOSED;
    }
    let counted = device.held.lend().device.stats(place);
    match counted {
        Some(counted) => {
            *row = CRow::of(&counted);
            DONE
        }
        None => NOTHING,
    }
}

/// The place that these numbers name, where they name one.
pub(crate) fn place_at(place: u32, major: u16, minor: u16) -> Option<Place>
    ensures in_range { IsSome result ↔ IsPlaceOf place major minor }
    ensures value { IfSome result (λ p. p ≡ place_of place major minor) }
{
    match place {
        0 => Some(Place::Top),
        1 => Some(Place::Root),
        2 => class_at(major, minor),
        _ => None,
    }
}

/// The place in this class.
fn class_at(major: u16, minor: u16) -> Option<Place>
    ensures in_range { IsSome result ↔ IsPlaceOf 2 major minor }
    ensures value { IfSome result (λ p. p ≡ place_of 2 major minor) }
{
    let major = Handle::new(major)?;
    let minor = Minor::new(minor)?;
    Some(Place::Class(ClassId { major, minor }))
}
