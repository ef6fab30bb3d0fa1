ghost use Rattle.std.specs.Prelude.{◌≡◌};
ghost use Rattle.q_packet.specs.Descriptor.{Descriptor};
ghost use Rattle.q_packet.specs.Stored.{stored_of};

use q_packet::{KeptPacket, StoredPacket};

/// What is written into a place of the caller's of a packet that leaves a queue: the whole packet, or as much of it as the caller needs.
pub trait Told: Copy {
    /// What it says of a packet.
    ghost told: { Descriptor → Self };

    /// The same of a packet where it is kept.
    fn tell(packet: &KeptPacket) -> Self
        ensures { result ≡ told packet.now };
}

impl Told for StoredPacket {
    ghost told = { stored_of };

    #[inline(always)]
    fn tell(packet: &KeptPacket) -> StoredPacket {
        packet.stored
    }
}
