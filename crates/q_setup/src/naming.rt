//! Which numbers a file leaves to the device: a qdisc without a handle gets one from 8001 (hexadecimal) up.
ghost use Rattle.std.specs.Prelude.{◌≡◌};
ghost use Rattle.q_setup.specs.Naming.{handle_names, is_chosen, names_chosen, place_names, same_handle, same_major, same_place};

use q_model::{Command, Handle, Place};

/// The least major number that a device chooses.
const FIRST_CHOSEN: u16 = 0x8001;

/// Whether a device may have chosen this number.
pub(crate) fn is_chosen(handle: Handle) -> bool
    ensures { result ≡ is_chosen handle }
{
    handle.major() >= FIRST_CHOSEN
}

/// Whether a command names such a number.
pub(crate) fn names_chosen(command: &Command) -> bool
    ensures { result ≡ names_chosen command.now }
{
    match *command {
        Command::QdiscAdd { place, handle, .. } => place_names(Some(place)) || is_named(handle),
        Command::QdiscChange { place, handle, .. } | Command::QdiscDel { place, handle } => {
            place_names(place) || is_named(handle)
        }
        Command::ClassAdd { parent, class, .. } => is_chosen(parent) || is_chosen(class.major),
        Command::ClassChange { parent, class, .. } | Command::ClassDel { parent, class } => {
            is_named(parent) || is_chosen(class.major)
        }
        Command::FilterAdd { parent, major, .. } => is_chosen(parent) || is_chosen(major),
        Command::FilterDel { parent, .. } => is_chosen(parent),
    }
}

fn place_names(place: Option<Place>) -> bool
    ensures { result ≡ place_names place }
{
    match place {
        Some(Place::Class(class)) => is_chosen(class.major),
        _ => false,
    }
}

fn is_named(handle: Option<Handle>) -> bool
    ensures { result ≡ handle_names handle }
{
    match handle {
        Some(handle) => is_chosen(handle),
        None => false,
    }
}

/// Whether a handle of the wanted tree and one of the device's are the same. Where no line names a number that a device chooses, each
/// such number is as good as another.
pub(crate) fn same_major(keep: bool, wanted: Handle, handle: Handle) -> bool
    ensures { result ≡ same_major keep wanted handle }
{
    if keep && is_chosen(wanted) {
        return is_chosen(handle);
    }
    wanted.major() == handle.major()
}

/// The same for qdiscs: an implicit leaf has no handle.
pub(crate) fn same_handle(keep: bool, wanted: Option<Handle>, handle: Option<Handle>) -> bool
    ensures { result ≡ same_handle keep wanted handle }
{
    match (wanted, handle) {
        (None, None) => true,
        (Some(wanted), Some(handle)) => same_major(keep, wanted, handle),
        _ => false,
    }
}

/// The same for places.
pub(crate) fn same_place(keep: bool, wanted: Place, place: Place) -> bool
    ensures { result ≡ same_place keep wanted place }
{
    match (wanted, place) {
        (Place::Top, Place::Top) | (Place::Root, Place::Root) => true,
        (Place::Class(wanted), Place::Class(class)) => {
            same_major(keep, wanted.major, class.major)
                && wanted.minor.number() == class.minor.number()
        }
        _ => false,
    }
}
