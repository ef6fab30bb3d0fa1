//! Packets are taken in from rings.
ghost use Rattle.std.specs.Prelude.{◌≡◌, ◌≢◌, ◌≤◌, ◌<◌, ◌^◌};
ghost use Rattle.q_ports.specs.NotedIn.{arrivals_between};
ghost use Rattle.qtree_c.specs.events.Noting.{noting, NotesTakenIn};
ghost use Rattle.qtree_c.specs.rings.Ends.{CallsBoth, CallsEnd, IsTakeIn, IsTakenIn};

use crate::abi::c_count::CCount;
use crate::abi::c_device::CDevice;
use crate::abi::c_outlet::COutlet;
use crate::abi::codes::{DONE, IS_CLOSED, MEMORY, OUT_OF_RANGE};
use crate::device::opened::Opened;
use q_packet::Moment;
use q_ports::Outlet;

/// The first packets of a ring arrive at the device and leave the ring, as many as wait, but at most so many.
#[unsafe(no_mangle)]
pub extern "C" fn qtree_take_in(
    device: &mut CDevice,
    outlet: &mut COutlet,
    now: u64,
    most: usize,
    taken: &mut usize,
) -> u32
    ensures taken { now ≤ 2 ^ 62 → CallsBoth (IsTakeIn now most result taken.new) result device.old.held.device device.new.held.device outlet.old.held.outlet outlet.new.held.outlet }
    ensures moment { 2 ^ 62 < now → (result ≡ 42) × (device.new.held.device ≡ device.old.held.device) × (outlet.new.held.outlet ≡ outlet.old.held.outlet) }
    ensures nothing { result ≢ 0 → result ≢ 90 → taken.new ≡ 0 }
    ensures noted { now ≤ 2 ^ 62 → NotesTakenIn now device.old.held.device outlet.old.held.outlet outlet.new.held.outlet device.old.held.last device.new.held.last }
    ensures unnoted { 2 ^ 62 < now → device.new.held.last ≡ device.old.held.last }
{
    *taken = 0;
    let Some(now) = Moment::new(now) else {
        return OUT_OF_RANGE;
    };
    if !device.is_open() || !outlet.is_open() {
        return IS_CLOSED;
    }
    let (arrived, code) = take_in(device.held.lend(), outlet.held.lend(), now, most);
    *taken = arrived;
    code
}

/// The packets and bytes that were taken in of an outlet.
#[unsafe(no_mangle)]
pub extern "C" fn qtree_outlet_share(outlet: &mut COutlet, share: &mut CCount) -> u32
    ensures share { CallsEnd (IsTakenIn result share.new) result outlet.old.held.outlet outlet.new.held.outlet }
    ensures same { outlet.new.held.outlet ≡ outlet.old.held.outlet }
    ensures kept { result ≢ 0 → share.new ≡ share.old }
{
    if !outlet.is_open() {
        return IS_CLOSED;
    }
    *share = CCount::of(outlet.held.lend().share());
    DONE
}

/// Packets of an open outlet arrive at an open device.
fn take_in(opened: &mut Opened, outlet: &mut Outlet, now: Moment, most: usize) -> (usize, u32)
    ensures taken { IsTakeIn now most result.1 result.0 opened.old.device opened.new.device outlet.old outlet.new }
    ensures codes { result.1 ≢ 50 }
    ensures noted { opened.new.last ≡ noting (arrivals_between now opened.old.device outlet.old outlet.new) opened.old.last }
{
    let taken_in = match &mut opened.last {
        Some(last) => outlet.take_in_noted(&mut opened.device, last, now, most),
        None => outlet.take_in(&mut opened.device, now, most),
    };
    if taken_in.memory {
        return (taken_in.taken, MEMORY);
    }
    (taken_in.taken, DONE)
}
