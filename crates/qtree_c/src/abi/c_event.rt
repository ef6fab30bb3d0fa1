ghost use Rattle.std.specs.Prelude.{◌≡◌};
ghost use Rattle.qtree_c.specs.abi.Structs.{event_of};

use crate::abi::c_packet::no_packet;
use q_device::Event;
use q_packet::StoredPacket;

/// An event of a device, as C has it.
#[repr(C)]
#[derive(Clone, Copy, Drop)]
pub struct CEvent {
    /// That of an arrival, else all 0.
    pub packet: StoredPacket,
    /// Nanoseconds.
    pub moment: u64,
    /// 0 for an arrival, 1 for a poll, 2 for a command.
    pub kind: u32,
}

impl CEvent {
    /// This event as C has it.
    pub fn of(event: &Event) -> CEvent
        ensures { result ≡ event_of event.now }
    {
        match event {
            Event::Arrive(packet, moment) => CEvent {
                packet: StoredPacket::of(packet),
                moment: moment.ns(),
                kind: 0,
            },
            Event::Poll(moment) => CEvent {
                packet: no_packet(),
                moment: moment.ns(),
                kind: 1,
            },
            Event::Command(_, moment) => CEvent {
                packet: no_packet(),
                moment: moment.ns(),
                kind: 2,
            },
        }
    }
}
