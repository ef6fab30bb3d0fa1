ghost use Rattle.std.specs.Prelude.{◌≡◌, ◌<◌, ◌≤◌, ◌+◌, ◌^◌, ◌++◌, ◌⊎◌, [], true, false, get_or, length, take, OnOk, OnErr, IfErr};
ghost use Rattle.std.specs.List.{fold};
ghost use Rattle.q_packet.specs.Descriptor.{Descriptor};
ghost use Rattle.q_model.specs.Beneath.{totals_in};
ghost use Rattle.q_ports.specs.Offered.{MayBeFull};
ghost use Rattle.q_ports.specs.Placed.{bytes_in, placed_by, placing, port_seen, ring_at, ring_length, ring_of, ring_of_port, HasRing};
ghost use Rattle.rtrb.specs.Ring.{known_items, producer_capacity, received, sent, ConsumerLooked};

use crate::batch::{free_places, keep_batch, numbered, with_packet, write_batch};
use crate::ring_rule::{PacketConsumer, PacketProducer};
use q_device::Totals as Share;
use q_packet::{KeptPacket, Packet, SOME_KEPT};
use std::marker::Model;

/// How many packets are placed by one store.
const BATCH: usize = 16;

/// A sender's end of a ring. It may be moved to another thread, and needs no lock there.
///
/// In contracts a port is the record `PortSeen`: its index, its ring, and the packets that it placed, in order.
#[derive(Drop)]
pub struct Port {
    index: u32,
    ring: PacketProducer,
    /// What it placed.
    share: Share,
    /// Where the packets of a batch are written as they are to be placed. What was there before does not matter.
    batch: [KeptPacket; BATCH],
}

impl Model for Port {
    ghost use Rattle.std.specs.Prelude.{◌≡◌};
    ghost use Rattle.rtrb.specs.Ring.{sent};
    ghost use Rattle.q_model.specs.Beneath.{totals_in};
    ghost use Rattle.q_ports.specs.Placed.{PortSeen, port_seen, ring_of};

    ghost Value = { PortSeen };

    ghost view = { λ p. port_seen p.index (ring_of p.ring) (sent p.ring) };

    ghost invariant = { λ p. p.share ≡ totals_in (sent p.ring) };
}

/// The packet that a port did not place, as it was offered.
#[derive(Clone, Copy, PartialEq, Eq, Debug)]
pub struct Full(pub Packet);

impl Port {
    /// A port of a ring in which nothing was placed.
    pub(crate) fn new(index: u32, ring: PacketProducer) -> Port
        requires { sent ring ≡ [] }
        ensures port { result ≡ port_seen index (ring_of ring) [] }
        ensures length { HasRing (producer_capacity ring) result }
    {
        Port {
            index,
            ring,
            share: Share {
                packets: 0,
                bytes: 0,
            },
            batch: [SOME_KEPT; BATCH],
        }
    }

    /// Places a packet in the ring. In the placed packet, `port` is the index of the port, and `number` is how many packets the port has placed,
    /// including this one. Waits for no thread, and allocates nothing.
    ///
    /// # Errors
    ///
    /// Returns [`Full`] with the packet as it was offered if the ring is full, or if it would bring the bytes placed so far above 2^64 - 1. Nothing
    /// has changed then. The ring is not full as long as fewer packets were placed in it, in all, than it has places.
    #[inline(always)]
    pub fn offer(&mut self, packet: Packet) -> Result<(), Full>
        ensures ok { OnOk result (self.new ≡ placing self.old packet) }
        ensures full { IfErr result (λ full. (full.0 ≡ packet) × (self.new ≡ self.old)) }
        ensures only { OnErr result ((ring_length self.old.ring ≤ length self.old.placed) ⊎ (2 ^ 64 ≤ bytes_in self.old.placed + packet.len)) }
    {
        if self.offer_kept(&KeptPacket::of(&packet)) {
            Ok(())
        } else {
            Err(Full(packet))
        }
    }

    /// Does what [`Port::offer`] does, for a packet in the form in which queues keep it. The packet stays where it is. Returns whether it was
    /// placed. If it was not, nothing has changed.
    #[inline(always)]
    pub fn offer_kept(&mut self, packet: &KeptPacket) -> bool
        ensures placed { result ≡ true → self.new ≡ placing self.old packet.now }
        ensures same { result ≡ false → self.new ≡ self.old }
        ensures full { result ≡ false → MayBeFull self.old packet.now }
    {
        let Some(share) = with_packet(&self.share, packet) else {
            return false;
        };
        if self.ring.is_full() {
            return false;
        }
        self.ring
            .push_reserved(numbered(packet, self.index, share.packets));
        self.share = share;
        true
    }

    /// Places packets in the ring in order, each as by [`Port::offer`], up to the first that is not placed. The receiver sees up to 16 of them at
    /// once, so that each costs less than an offer of its own. Waits for no thread, and allocates nothing.
    ///
    /// Returns how many packets were placed. These are all packets, unless the ring is full for the next one, or the next one would bring the bytes
    /// placed so far above 2^64 - 1.
    pub fn offer_many(&mut self, packets: &[Packet]) -> usize
        ensures few { result ≤ length packets.now }
        ensures placed { self.new ≡ fold placing self.old (take result packets.now) }
        ensures full { result < length packets.now → (d : Descriptor) → MayBeFull self.new (get_or packets.now result d) }
    {
        let mut placed = 0;
        while placed < packets.len() {
            let wanted = BATCH.min(packets.len() - placed);
            let count = self.place_packets(&packets[placed..placed + wanted]);
            placed += count;
            if count < wanted {
                return placed;
            }
        }
        placed
    }

    /// Does what [`Port::offer_many`] does, for packets in the form in which queues keep them, which are copied as a whole.
    pub fn offer_many_kept(&mut self, packets: &[KeptPacket]) -> usize
        ensures few { result ≤ length packets.now }
        ensures placed { self.new ≡ fold placing self.old (take result packets.now) }
        ensures full { result < length packets.now → (d : Descriptor) → MayBeFull self.new (get_or packets.now result d) }
    {
        let mut placed = 0;
        while placed < packets.len() {
            let wanted = BATCH.min(packets.len() - placed);
            let count = self.place_batch(&packets[placed..placed + wanted]);
            placed += count;
            if count < wanted {
                return placed;
            }
        }
        placed
    }

    // Places as many of the packets of a batch as fit the ring, in the form in which they are kept.
    fn place_packets(&mut self, packets: &[Packet]) -> usize
        requires { length packets.now ≤ 16 }
        ensures few { result ≤ length packets.now }
        ensures placed { self.new ≡ fold placing self.old (take result packets.now) }
        ensures full { result < length packets.now → (d : Descriptor) → MayBeFull self.new (get_or packets.now result d) }
    {
        let mut batch = [SOME_KEPT; BATCH];
        keep_batch(packets, &mut batch);
        self.place_batch(&batch[..packets.len()])
    }

    // The same of packets that are kept already.
    fn place_batch(&mut self, packets: &[KeptPacket]) -> usize
        requires { length packets.now ≤ 16 }
        ensures few { result ≤ length packets.now }
        ensures placed { self.new ≡ fold placing self.old (take result packets.now) }
        ensures full { result < length packets.now → (d : Descriptor) → MayBeFull self.new (get_or packets.now result d) }
    {
        let room = free_places(&mut self.ring, packets.len());
        let (count, share) = write_batch(
            &mut self.batch[..room],
            &packets[..room],
            self.index,
            self.share,
        );
        // There is room for them.
        let _pushed = self.ring.push_entire_slice(&self.batch[..count]);
        self.share = share;
        count
    }

    /// Its index among the drain's ports, from 0.
    pub(crate) fn index(&self) -> u32
        ensures { result ≡ self.now.index }
    {
        self.index
    }

    // Checks the ring with both ends in hand: all that was placed and not received is then known to wait.
    pub(crate) fn look(&mut self, ring: &mut PacketConsumer)
        requires { ring_of_port self.old ≡ ring_at ring.old }
        ensures same { self.new ≡ self.old }
        ensures looked { ConsumerLooked ring.old ring.new }
        ensures whole { received ring.new ++ known_items ring.new ≡ placed_by self.old }
    {
        ring.slots_beside(&mut self.ring);
    }

    /// Returns how many packets and bytes the port has placed so far. (This share has nothing to do with the share of a rate that a class gets.)
    pub fn share(&self) -> Share
        ensures { result ≡ totals_in self.now.placed }
    {
        self.share
    }
}
