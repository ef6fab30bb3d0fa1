ghost use Rattle.std.specs.Prelude.{◌≡◌};

use q_packet::{KeptPacket, Moment, Stamped};
use std::marker::Model;

/// A packet in a ring, with the time at which it was queued. A contract sees it as the record `Stamped`, as it sees the type of that
/// name, which has the same in the form in which callers have it.
#[derive(Clone, Copy)]
pub(crate) struct Cell {
    pub packet: KeptPacket,
    pub at: Moment,
}

const _: () = prove!(size_of::<Cell>() == 72);

impl Model for Cell {
    ghost use Rattle.q_packet.specs.declared.stamped.Stamped.{Stamped};

    ghost Value = { Stamped };

    ghost view = { λ c. record { packet = c.packet; at = c.at } };

    ghost inverse = { λ s. record { packet = s.packet; at = s.at } };
}

impl Cell {
    /// The packet with its time, as callers have it.
    #[inline(always)]
    pub(crate) fn stamped(&self) -> Stamped
        ensures { result ≡ self.now }
    {
        Stamped {
            packet: self.packet.packet(),
            at: self.at,
        }
    }
}
