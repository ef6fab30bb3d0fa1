//! What a line gives is in its range, which the types keep. These functions do nothing: their clauses are for the
//! `ranges` of a command, an event and their parts.
ghost use Rattle.std.specs.Prelude.{IfSome};
ghost use Rattle.q_model.specs.Numbers.{IsHandle, IsQuantum, IsWithin, most_u32};
ghost use Rattle.q_model.specs.Options.{IsPrefix};
ghost use Rattle.q_model.specs.Ranges.{HasPacketFields, IsClassId, IsFilter, IsKind, IsPacket, IsPlace};
ghost use Rattle.q_packet.specs.Descriptor.{Descriptor};
ghost use Rattle.q_packet.specs.Stored.{descriptor, IsStored};

use crate::class_id::ClassId;
use crate::filter::Filter;
use crate::handle::Handle;
use crate::ip_prefix::IpPrefix;
use crate::kind::Kind;
use crate::place::Place;
use crate::quantum::Quantum;
use q_packet::{Packet, StoredPacket};

/// What a line about a qdisc names is in its range, so far as it is given.
pub(crate) fn qdisc_ranges(place: Option<Place>, handle: Option<Handle>, kind: Option<Kind>)
    ensures place { IfSome place IsPlace }
    ensures handle { IfSome handle IsHandle }
    ensures kind { IfSome kind IsKind }
{
    if let Some(place) = place {
        place.ranges();
    }
    handle_ranges(handle);
    if let Some(kind) = kind {
        kind.ranges();
    }
}

/// What a line about a class names is in its range, so far as it is given.
pub(crate) fn class_ranges(parent: Option<Handle>, class: ClassId, quantum: Option<Quantum>)
    ensures parent { IfSome parent IsHandle }
    ensures class { IsClassId class }
    ensures quantum { IfSome quantum IsQuantum }
{
    handle_ranges(parent);
    class.ranges();
    if let Some(quantum) = quantum {
        quantum.bytes();
    }
}

/// The handles that a line about a new filter names are in their range, and the numbers of the filter.
pub(crate) fn filter_ranges(parent: Handle, major: Handle, filter: Filter)
    ensures parent { IsHandle parent }
    ensures major { IsHandle major }
    ensures filter { IsFilter filter }
{
    parent.major();
    major.major();
    filter.ranges();
}

/// A handle that is given is in its range.
fn handle_ranges(handle: Option<Handle>)
    ensures { IfSome handle IsHandle }
{
    if let Some(handle) = handle {
        handle.major();
    }
}

/// A number of packets or bytes that is given fits 32 bits.
pub(crate) fn count_ranges(count: Option<u32>)
    ensures { IfSome count (IsWithin 0 most_u32) }
{
    let _ = count.is_some();
}

/// A prefix that is given has an address and a length of its version.
pub(crate) fn prefix_ranges(prefix: Option<IpPrefix>)
    ensures { IfSome prefix IsPrefix }
{
    if let Some(prefix) = prefix {
        prefix.ranges();
    }
}

/// A byte that is given fits 8 bits.
pub(crate) fn byte_ranges(byte: Option<u8>)
    ensures { IfSome byte (IsWithin 0 0xff) }
{
    let _ = byte.is_some();
}

/// A port that is given fits 16 bits.
pub(crate) fn port_ranges(port: Option<u16>)
    ensures { IfSome port (IsWithin 0 0xffff) }
{
    let _ = port.is_some();
}

/// The numbers of a packet fit their fields; its length is not 0, and its priority at most 15, which the type keeps. It does
/// nothing: its clause is for the laws of other crates.
pub fn packet_ranges(packet: Packet)
    ensures packet { IsPacket packet }
    ensures fields { HasPacketFields packet }
{
    let _ = &packet.key.family;
    laws_take_every_packet();
}

/// The same of a stored packet, each field of which is within its range.
pub fn stored_ranges(packet: &StoredPacket)
    requires { IsStored packet.now }
    ensures packet { IsPacket (descriptor packet.now) }
    ensures fields { HasPacketFields (descriptor packet.now) }
{
    // That a number fits its field is known where it is read.
    let _port = packet.port;
    let _number = packet.number;
    let _buf = packet.buf;
    let _hash = packet.hash;
    let _len = packet.len;
    laws_take_every_packet();
}

/// The range of packets that the laws over events have: every packet in the ranges of its type is in it. It does nothing.
pub fn laws_take_every_packet()
    ensures { (p : Descriptor) → IsPacket p → HasPacketFields p }
{}
