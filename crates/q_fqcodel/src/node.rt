ghost use Rattle.std.specs.Prelude.{◌≡◌};
ghost use Rattle.q_codel.specs.Front.{front_of};
ghost use Rattle.q_fqcodel.specs.Chain.{stamped_of};

use q_codel::Front;
use q_packet::{KeptPacket, Moment, Stamped};

/// A queued packet with the time at which it was queued, and the key of the packet behind it in its flow.
///
/// It has the fields of a `Stamped` and not one whole, whose end would be padding.
#[derive(Clone, Copy, Debug)]
pub(crate) struct Node {
    pub packet: KeptPacket,
    pub at: Moment,
    /// No key where the packet is the flow's last: it is not read then.
    pub next: usize,
}

// A slab keeps each as a value that is there or not.
const _: () = prove!(size_of::<Option<Node>>() <= 88);

impl Node {
    /// The packet, as it was queued.
    pub(crate) fn stamped(self) -> Stamped
        ensures { result ≡ stamped_of self }
    {
        Stamped {
            packet: self.packet.packet(),
            at: self.at,
        }
    }

    /// What CoDel reads of the packet.
    pub(crate) fn front(&self) -> Front
        ensures { result ≡ front_of (stamped_of self.now) }
    {
        let packet = &self.packet;
        Front {
            at: self.at,
            len: packet.len(),
            ecn: packet.ecn(),
        }
    }
}
