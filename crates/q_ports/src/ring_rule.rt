use q_packet::KeptPacket;
use rtrb::{Consumer, Producer, Protocol};
use std::alloc::Global;

/// The rule of a ring: what was placed there can be counted, in packets and in bytes.
#[derive(Clone, Copy)]
pub struct RingRule;

impl Protocol<KeptPacket> for RingRule {
    ghost use Rattle.std.specs.Prelude.{◌++◌, ◌∷◌, []};
    ghost use Rattle.q_ports.specs.Placed.{CanBeCounted};

    ghost allows = { λ before packet. CanBeCounted (before ++ packet ∷ []) };
}

/// The end of a ring at which packets are placed.
pub type PacketProducer = Producer<KeptPacket, Global, RingRule>;

/// The end of a ring at which packets are taken.
pub type PacketConsumer = Consumer<KeptPacket, Global, RingRule>;
