//! Rings are opened, and each end is closed.
ghost use Rattle.std.specs.Prelude.{◌≡◌, ◌≢◌, ◌≤◌, None, IfOk, IsSome};
ghost use Rattle.qtree_c.specs.rings.Ends.{AreOpened, IsNewRing};

pub(crate) mod intakes;
pub(crate) mod offers;
pub(crate) mod sending;

use crate::abi::c_outlet::COutlet;
use crate::abi::c_port::CPort;
use crate::abi::codes::{DONE, IS_OPEN, MEMORY, OUT_OF_RANGE};
use q_ports::{Outlet, Port, open_ring};
use std::alloc::{AllocError, Global};

/// The most places of a ring.
const MOST_PLACES: usize = 65536;

/// Opens both ends of a ring in closed places.
#[unsafe(no_mangle)]
pub extern "C" fn qtree_ring_open(
    alloc: Global,
    port: &mut CPort,
    outlet: &mut COutlet,
    index: u32,
    places: usize,
) -> u32
    ensures is_open { IsSome port.old.held.port → result ≡ 51 }
    ensures is_open_outlet { IsSome outlet.old.held.outlet → result ≡ 51 }
    ensures opened { result ≡ 0 → AreOpened index places port.new.held.port outlet.new.held.outlet }
    ensures in_range { result ≡ 0 → (1 ≤ places) × (places ≤ 65536) }
    ensures taken { port.old.held.port ≡ None → outlet.old.held.outlet ≡ None → 1 ≤ places → places ≤ 65536 → result ≢ 42 }
    ensures memory { result ≡ 90 → (1 ≤ places) × (places ≤ 65536) }
    ensures same { result ≢ 0 → port.new.held.port ≡ port.old.held.port }
    ensures same_outlet { result ≢ 0 → outlet.new.held.outlet ≡ outlet.old.held.outlet }
    ensures codes { port.old.held.port ≡ None → outlet.old.held.outlet ≡ None → result ≢ 0 → result ≢ 42 → result ≡ 90 }
{
    if port.is_open() || outlet.is_open() {
        return IS_OPEN;
    }
    if places < 1 || MOST_PLACES < places {
        return OUT_OF_RANGE;
    }
    let Ok((opened, end)) = open_both(alloc, index, places) else {
        return MEMORY;
    };
    port.put(opened);
    outlet.put(end);
    DONE
}

/// Closes the place of a port; nothing happens where it is closed.
#[unsafe(no_mangle)]
pub extern "C" fn qtree_port_close(alloc: Global, port: &mut CPort)
    ensures { port.new.held.port ≡ None }
{
    let _ = port.take(alloc);
}

/// Closes the place of an outlet; nothing happens where it is closed.
#[unsafe(no_mangle)]
pub extern "C" fn qtree_outlet_close(alloc: Global, outlet: &mut COutlet)
    ensures { outlet.new.held.outlet ≡ None }
{
    let _ = outlet.take(alloc);
}

/// Both ends of a ring.
///
/// # Errors
///
/// `AllocError` if an allocation fails.
fn open_both(
    alloc: Global,
    index: u32,
    places: usize,
) -> Result<(Box<Port>, Box<Outlet>), AllocError>
    requires { (1 ≤ places) × (places ≤ 65536) }
    ensures { IfOk result (λ r. IsNewRing index places r.0.value r.1.value) }
{
    let (port, outlet) = open_ring(alloc, index, places)?;
    Ok((Box::new(alloc, port)?, Box::new(alloc, outlet)?))
}
