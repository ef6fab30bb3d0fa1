ghost use Rattle.q_model.specs.Events.{IsEvent};

use crate::command::Command;
use crate::ranges::packet_ranges;
use q_packet::{Moment, Packet};

/// What is done to a device, and when. A time before the latest one that the device has seen counts as that one.
#[derive(Clone, Copy, PartialEq, Eq, Debug)]
pub enum Event {
    /// A packet arrives.
    Arrive(Packet, Moment),
    /// The device is asked for a packet.
    Poll(Moment),
    /// The tree is changed.
    Command(Command, Moment),
}

impl Event {
    /// Every number is in its range, which the types keep. It does nothing: its clause is for the laws of other crates.
    pub fn ranges(&self)
        ensures { IsEvent self.now }
    {
        match self {
            Event::Arrive(packet, moment) => {
                packet_ranges(*packet);
                moment.ns();
            }
            Event::Poll(moment) => {
                moment.ns();
            }
            Event::Command(command, moment) => {
                command.ranges();
                moment.ns();
            }
        }
    }
}
