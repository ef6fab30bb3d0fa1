//! What holds for every book and every ring.
ghost use Rattle.std.specs.Prelude.{◌≡◌, ◌≤◌, ◌++◌, length};
ghost use mathlib.Core.List.{IsPrefix};
ghost use Rattle.q_ports.specs.Placed.{placed_by, ring_of_port};
ghost use Rattle.q_ports.specs.Rings.{with_known};
ghost use Rattle.q_device.specs.DeviceLaws.{HasItsMemory, IsLawfulDevice, IsReplayed, IsReplayOfRecorded, TellsItsLosses};

use crate::booked::Booked;
use crate::outlet::Outlet;
use crate::port::Port;
use crate::seat::Seat;
use crate::settled::Settled;
pub use crate::settling::settle_on;
pub use crate::turn::turn_on;
use q_device::Totals as Share;
use q_device::laws::{
    device_has_its_memory, device_is_lawful, device_is_replayed, device_tells_its_losses,
};
use std::sync::ledger::Ledger;

/// Whenever the lock is free, the device is the replay of all that happened to it. If there were no more events than the recorder keeps, it is also
/// the replay of the recorded ones.
pub fn booked_is_replayed<P: Ledger, B: Ledger>(booked: &Booked<P, B>)
    ensures all { IsReplayed booked.now }
    ensures recorded { IsReplayOfRecorded booked.now }
{
    device_is_replayed(booked.device());
}

/// Whenever the lock is free, the tree is lawful, and each of its rows is balanced: what arrived is what was sent, refused or dropped, or is
/// queued, in packets and in bytes.
pub fn booked_is_lawful<P: Ledger, B: Ledger>(booked: &Booked<P, B>)
    ensures { IsLawfulDevice booked.now }
{
    device_is_lawful(booked.device());
}

/// Whenever the lock is free, the device counts as many packets as refused or dropped as it has handed out as losses or keeps as losses that wait.
pub fn booked_tells_its_losses<P: Ledger, B: Ledger>(booked: &Booked<P, B>)
    ensures { TellsItsLosses booked.now }
{
    device_tells_its_losses(booked.device());
}

/// Whenever the lock is free, the device has room for the loss of each packet that is queued.
pub fn booked_has_its_memory<P: Ledger, B: Ledger>(booked: &Booked<P, B>)
    ensures { HasItsMemory booked.now }
{
    device_has_its_memory(booked.device());
}

/// The book is what the device counts as arrived: what was let in with a permit is at most that, and with a permit of all parts it is just that.
/// The function does nothing.
pub fn book_is_arrived<P: Ledger, B: Ledger>(booked: &mut Booked<P, B>, seat: &mut Seat<P, B>)
    ensures same { (booked.new ≡ booked.old) × (seat.new ≡ seat.old) }
    ensures bound { (seat.old.packets ≤ booked.old.device.tree.top.arrived.packets) × (seat.old.bytes ≤ booked.old.device.tree.top.arrived.bytes) }
    ensures packets { seat.old.parts ≡ P.parts → seat.old.packets ≡ booked.old.device.tree.top.arrived.packets }
    ensures bytes { seat.old.parts ≡ B.parts → seat.old.bytes ≡ booked.old.device.tree.top.arrived.bytes }
{
    booked.audit(seat);
}

/// What has arrived at the device is what the ports of the settled drain placed, since the permit that it keeps is whole, and by its type is of
/// this book. Returns that, and does nothing else.
pub fn settled<P: Ledger, B: Ledger>(
    booked: &mut Booked<P, B>,
    settled: &mut Settled<P, B>,
) -> Share
    requires { (P.parts ≡ 65) × (B.parts ≡ 65) }
    ensures arrived { result ≡ booked.old.device.tree.top.arrived }
    ensures share { result ≡ settled.old }
    ensures same { (booked.new ≡ booked.old) × (settled.new ≡ settled.old) }
{
    booked.audit(&mut settled.seat);
    settled.share
}

/// What was taken in at an outlet is a beginning of what the port of its ring placed, packet by packet, and the rest waits in the ring.
///
/// Returns how many packets wait. If none does, all that was placed was taken in. The function looks at the ring with both ends at hand. It places
/// nothing, and takes nothing in.
pub fn ring_loses_nothing(outlet: &mut Outlet, port: &mut Port) -> usize
    requires { ring_of_port port.old ≡ outlet.old.ring }
    ensures same { port.new ≡ port.old }
    ensures looked { outlet.new ≡ with_known outlet.new.known outlet.old }
    ensures beginning { IsPrefix outlet.old.received (placed_by port.old) }
    ensures rest { outlet.old.received ++ outlet.new.known ≡ placed_by port.old }
    ensures waiting { result ≡ length outlet.new.known }
    ensures all { result ≡ 0 → outlet.old.received ≡ placed_by port.old }
{
    outlet.look_beside(port)
}
