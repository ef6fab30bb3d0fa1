ghost use Rattle.std.specs.Prelude.{◌≡◌, ◌≤◌, ◌<◌, ◌^◌, IsTrue};
ghost use Rattle.q_packet.specs.declared.ecn.Ecn.TheVariants.{Ce};
ghost use Rattle.q_packet.specs.Stored.{descriptor, stored_of, IsStored};

use crate::ecn::Ecn;
use crate::flow_key::FlowKey;
use crate::packet::Packet;
use crate::stored_packet::{SOME_STORED, StoredPacket};
use std::marker::Model;

/// A packet as queues keep it: a [`StoredPacket`], each field of which is within its range. A contract sees it as the record
/// `Descriptor`, as it sees a [`Packet`].
#[repr(C)]
#[derive(Clone, Copy, PartialEq, Eq, Debug)]
pub struct KeptPacket {
    pub stored: StoredPacket,
}

const _: () = prove!(size_of::<KeptPacket>() == 64);

impl Model for KeptPacket {
    ghost use Rattle.std.specs.Prelude.{◌≡◌};
    ghost use Rattle.std.proofs.Common.{ap};
    ghost use Rattle.q_packet.specs.Descriptor.{Descriptor};
    ghost use Rattle.q_packet.specs.Stored.{descriptor, stored_of, IsStored};
    ghost use Rattle.q_packet.specs.declared.stored_packet.StoredPacket.{StoredPacket};
    ghost use Rattle.q_packet.specs.StoredLaw.{stored-descriptor};

    ghost Value = { Descriptor };

    ghost view = { λ k. descriptor k.stored };

    ghost invariant = { λ k. IsStored k.stored };

    ghost inverse = { λ d. record { stored = stored_of d } };

    ghost inverse_ok = { λ a h. ap (λ (s : StoredPacket). record { stored = s }) (stored-descriptor a.stored h) };
}

impl KeptPacket {
    /// This packet as queues keep it: its fields are written one by one.
    #[inline(always)]
    pub fn of(packet: &Packet) -> KeptPacket
        ensures { result ≡ packet.now }
    {
        KeptPacket {
            stored: StoredPacket::of(packet),
        }
    }

    /// The packet, its fields read one by one.
    #[inline(always)]
    pub fn packet(&self) -> Packet
        ensures { result ≡ self.now }
    {
        self.stored.packet()
    }

    /// A stored packet, each field of which is within its range: [`StoredPacket::in_range`] tells. It is copied whole.
    #[inline(always)]
    pub fn kept(stored: &StoredPacket) -> KeptPacket
        requires { IsStored stored.now }
        ensures { result ≡ descriptor stored.now }
    {
        KeptPacket { stored: *stored }
    }

    /// Writes the stored packet to a place, whatever was in it: one copy of 64 bytes.
    #[inline(always)]
    pub fn write(&self, out: &mut StoredPacket)
        ensures { out.new ≡ stored_of self.now }
    {
        *out = self.stored;
    }

    /// What distinguishes its flow, put together from the halves of its addresses.
    #[inline(always)]
    pub fn key(&self) -> FlowKey
        ensures { result ≡ self.now.key }
    {
        self.stored.key()
    }

    /// Its length in bytes, 1 to 65535.
    #[inline(always)]
    pub fn len(&self) -> u16
        ensures value { result ≡ self.now.len }
        ensures some { 1 ≤ result }
    {
        self.stored.len
    }

    /// Its ECN codepoint.
    #[inline(always)]
    pub fn ecn(&self) -> Ecn
        ensures { result ≡ self.now.ecn }
    {
        Ecn::from_bits(self.stored.ecn)
    }

    /// Marks it: its codepoint is `Ce` now.
    #[inline(always)]
    pub fn mark(&mut self)
        ensures { self.new ≡ record self.old { ecn = Ce } }
    {
        self.stored.ecn = Ecn::Ce.bits();
    }
}

/// A packet for a place to which one will be copied, before that comes: any would do.
pub const SOME_KEPT: KeptPacket = KeptPacket {
    stored: SOME_STORED,
};
