//! A fifo with a limit in packets or in bytes, as pfifo, bfifo and the queue of a tbf have it.
ghost use Rattle.std.specs.Prelude.{◌≡◌, ◌≤◌, ◌<◌, ◌↔◌, ◌+◌, [], ◌∷◌, ◌++◌, All, drop, length, map, min, nat_lt, slice_get, sum_by, take, option_map, true, false, IfSome, IsTrue, OnOk, OnErr};
ghost use Rattle.q_packet.specs.Descriptor.{Descriptor};
ghost use Rattle.q_packet.specs.Stored.{descriptor, stored_of, IsStored};
ghost use Rattle.q_packet.specs.Totals.{count, size};
ghost use Rattle.q_codel.specs.Bursts.{HasWidths, IsShort, room_of, stamped_at};
ghost use Rattle.q_codel.specs.FifoState.{most_places};
ghost use Rattle.q_codel.specs.Front.{front_of};
ghost use Rattle.q_codel.specs.Losses.{AreLost};
ghost use Rattle.q_packet.specs.declared.stamped.Stamped.{Stamped};
ghost use Rattle.std.specs.Option.{option_map_or};

use crate::front::Front;
use crate::limit::Limit;
use crate::queue::Queue;
use crate::ring::Ring;
use crate::sink::Sink;
use crate::told::Told;
use q_packet::{Cause, KeptPacket, Moment, Stamped, StoredPacket};
use std::alloc::{AllocError, Global};
use std::marker::Model;

/// A first-in first-out queue of stamped packets, limited in packets or in bytes (tc-pfifo(8), tc-bfifo(8)).
///
/// A contract sees it as the record `FifoState`: its packets, front first, its limit, and how many packets it has places
/// for. Only [`Fifo::reserve`] allocates, and `put`, `take` and `head` are O(1).
#[derive(Drop)]
pub struct Fifo {
    packets: Ring,
    bytes: u64,
    limit: Limit,
}

impl Model for Fifo {
    ghost use Rattle.q_codel.specs.FifoState.{FifoState, IsKept};

    ghost Value = { FifoState };

    ghost view = { λ f. record {
      packets = f.packets.packets;
      limit = f.limit;
      places = f.packets.places;
    } };

    ghost invariant = { λ f. IsKept f.bytes f.packets.packets f.packets.places };
}

impl Fifo {
    ghost use Rattle.q_codel.specs.FifoState.{takes};

    /// An empty queue with this limit. It allocates nothing yet.
    pub fn new(alloc: Global, limit: Limit) -> Fifo
        ensures empty { result.packets ≡ [] }
        ensures limit { result.limit ≡ limit }
        ensures places { result.places ≡ 0 }
    {
        Fifo {
            packets: Ring::new(alloc),
            bytes: 0,
            limit,
        }
    }

    /// Whether there is a place for one more packet, so that [`Fifo::reserve`] has nothing to do.
    pub fn has_place(&self) -> bool
        ensures { result ≡ nat_lt (count self.now.packets) self.now.places }
    {
        self.packets.len() < self.packets.places()
    }

    /// Makes a place for one more packet, if there is none yet.
    ///
    /// It fails only if there was none, and its allocation failed or 2^47 packets are held. The packets stay.
    pub fn reserve(&mut self) -> Result<(), AllocError>
        ensures same { self.new ≡ record self.old { places = self.new.places } }
        ensures room { count self.old.packets < self.old.places → self.new ≡ self.old }
        ensures grows { self.old.places ≤ self.new.places }
        ensures ok { OnOk result (count self.new.packets < self.new.places) }
        ensures full { OnErr result (self.old.places ≤ count self.old.packets) }
    {
        // A place that is there needs no call.
        if self.packets.len() < self.packets.places() {
            return Ok(());
        }
        self.grow()
    }

    // The same where there is no place.
    #[cold]
    #[inline(never)]
    fn grow(&mut self) -> Result<(), AllocError>
        requires { self.old.places ≡ count self.old.packets }
        ensures same { self.new ≡ record self.old { places = self.new.places } }
        ensures grows { self.old.places ≤ self.new.places }
        ensures ok { OnOk result (count self.new.packets < self.new.places) }
    {
        self.packets.grow()
    }

    /// Whether the limit allows one more packet of `len` bytes.
    pub fn fits(&self, len: u16) -> bool
        ensures { result ≡ takes self.now.limit self.now.packets len }
    {
        match self.limit {
            Limit::Packets(most) => (self.packets.len() as u64) < most,
            Limit::Bytes(most) => self.bytes + len as u64 <= most,
        }
    }

    /// Appends a packet. There must be a place for it, and the limit must allow it.
    pub fn put(&mut self, stamped: Stamped)
        requires fits { IsTrue (takes self.old.limit self.old.packets stamped.packet.len) }
        requires place { count self.old.packets < self.old.places }
        ensures { self.new ≡ record self.old { packets = self.old.packets ++ stamped ∷ [] } }
    {
        let packet = KeptPacket::of(&stamped.packet);
        self.put_from(&packet, stamped.at);
    }

    /// Appends a packet that is read in the caller's memory, queued at the time `now`. There must be a place for it, and the limit must
    /// allow it. The packet is copied once.
    pub fn put_from(&mut self, packet: &KeptPacket, now: Moment)
        requires fits { IsTrue (takes self.old.limit self.old.packets packet.now.len) }
        requires place { count self.old.packets < self.old.places }
        ensures { self.new ≡ record self.old { packets = self.old.packets ++ record { packet = packet.now; at = now } ∷ [] } }
    {
        self.packets.push(packet, now);
        self.bytes += packet.len() as u64;
    }

    /// The same of a stored packet, each field of which is within its range. It is copied once, from the caller's memory to its place.
    #[inline(always)]
    pub fn put_stored(&mut self, packet: &StoredPacket, now: Moment)
        requires fits { IsTrue (takes self.old.limit self.old.packets packet.now.len) }
        requires place { count self.old.packets < self.old.places }
        requires in_range { IsStored packet.now }
        ensures { self.new ≡ record self.old { packets = self.old.packets ++ record { packet = descriptor packet.now; at = now } ∷ [] } }
    {
        self.packets.push_stored(packet, now);
        self.bytes += packet.len as u64;
    }

    /// Appends the first of these packets, all queued at the time `now`: as many as there is a place for and the limit in packets allows,
    /// up to the first that has a field out of its range, or more bytes than `longest`. Returns how many, and their bytes. A queue
    /// whose limit is in bytes takes none, since each would have to be asked about.
    #[inline(always)]
    pub fn put_burst(&mut self, packets: &[StoredPacket], longest: u16, now: Moment) -> (usize, u64)
        ensures most { result.0 ≤ min (room_of self.old) (length packets.now) }
        ensures taken { All (IsShort longest) (take result.0 packets.now) }
        ensures widths { All HasWidths (take result.0 packets.now) }
        ensures next { result.0 < room_of self.old → IfSome (slice_get packets.now result.0) (λ c. IsShort longest c → ⊥) }
        ensures bytes { result.1 ≡ sum_by (λ (p : Descriptor). p.len) (map descriptor (take result.0 packets.now)) }
        ensures after { self.new ≡ record self.old { packets = self.old.packets ++ stamped_at now (map descriptor (take result.0 packets.now)) } }
    {
        let most = self.room().min(packets.len());
        let (taken, bytes) = push_burst(&mut self.packets, &packets[..most], longest, now);
        self.bytes += bytes;
        (taken, bytes)
    }

    // How many packets more it takes with nothing asked.
    #[inline(always)]
    fn room(&self) -> usize
        ensures value { result ≡ room_of self.now }
        ensures within { count self.now.packets + result ≤ self.now.places }
    {
        let queued = self.packets.len();
        let places = self.packets.places() - queued;
        match self.limit {
            Limit::Packets(most) => places.min(most.saturating_sub(queued as u64) as usize),
            Limit::Bytes(_) => 0,
        }
    }

    /// Takes packets from the front into lent places, in each of which it writes what is told there of a packet: as many as there are
    /// places for, or are queued. Returns how many, and their bytes. What is behind them in the places stays, and the places of the
    /// queue stay reserved.
    #[inline(always)]
    pub fn take_burst<T: Told>(&mut self, places: &mut [T]) -> (usize, u64)
        ensures count { result.0 ≡ min (length places.old) (count self.old.packets) }
        ensures bytes { result.1 ≡ size (take result.0 self.old.packets) }
        ensures told { places.new ≡ map (λ (s : Stamped). T.told s.packet) (take result.0 self.old.packets) ++ drop result.0 places.old }
        ensures rest { self.new ≡ record self.old { packets = drop result.0 self.old.packets } }
    {
        let most = self.packets.len().min(places.len());
        let bytes = pop_burst(&mut self.packets, places, most);
        self.bytes -= bytes;
        (most, bytes)
    }

    /// The packet in front; `None` where the queue is empty.
    pub fn head(&self) -> Option<Stamped>
        ensures { result ≡ slice_get self.now.packets 0 }
    {
        let front = self.packets.front()?;
        Some(front.stamped())
    }

    /// The packet in front, in the form in which it is kept; `None` where the queue is empty.
    pub fn first(&self) -> Option<KeptPacket>
        ensures { result ≡ option_map (λ (s : Stamped). s.packet) (slice_get self.now.packets 0) }
    {
        let front = self.packets.front()?;
        Some(front.packet)
    }

    /// Takes the packet in front; `None` where the queue is empty. Its place stays reserved.
    pub fn take(&mut self) -> Option<Stamped>
        ensures front { result ≡ slice_get self.old.packets 0 }
        ensures rest { self.new ≡ record self.old { packets = drop 1 self.old.packets } }
    {
        let front = self.packets.front()?;
        let packet = &front.packet;
        self.bytes -= packet.len() as u64;
        Some(self.packets.pop().stamped())
    }

    /// What CoDel reads of the packet in front; `None` where the queue is empty. No packet is copied.
    pub fn front(&self) -> Option<Front>
        ensures { result ≡ option_map front_of (slice_get self.now.packets 0) }
    {
        let front = self.packets.front()?;
        let packet = &front.packet;
        Some(Front {
            at: front.at,
            len: packet.len(),
            ecn: packet.ecn(),
        })
    }

    /// Takes the packet in front into `out`, and returns its length in bytes; 0 if the queue is empty, and `out` stays
    /// then. The packet is copied once. Its place stays reserved.
    pub fn take_into(&mut self, out: &mut KeptPacket) -> u16
        ensures len { result ≡ option_map_or (λ (s : Stamped). s.packet.len) (slice_get self.old.packets 0) 0 }
        ensures some { (0 < result) ↔ (0 < count self.old.packets) }
        ensures given { out.new ≡ option_map_or (λ (s : Stamped). s.packet) (slice_get self.old.packets 0) out.old }
        ensures rest { self.new ≡ record self.old { packets = drop 1 self.old.packets } }
    {
        let Some(front) = self.packets.front() else {
            return 0;
        };
        let packet = &front.packet;
        let len = packet.len();
        *out = *packet;
        let _ = self.packets.pop();
        self.bytes -= len as u64;
        len
    }

    /// The same as [`Fifo::take_into`], to a place in which anything may be. The packet is copied once.
    #[inline(always)]
    pub fn take_stored(&mut self, out: &mut StoredPacket) -> u16
        ensures len { result ≡ option_map_or (λ (s : Stamped). s.packet.len) (slice_get self.old.packets 0) 0 }
        ensures some { (0 < result) ↔ (0 < count self.old.packets) }
        ensures given { out.new ≡ option_map_or (λ (s : Stamped). stored_of s.packet) (slice_get self.old.packets 0) out.old }
        ensures rest { self.new ≡ record self.old { packets = drop 1 self.old.packets } }
    {
        let Some(front) = self.packets.front() else {
            return 0;
        };
        let packet = &front.packet;
        let len = packet.len();
        packet.write(out);
        let _ = self.packets.pop();
        self.bytes -= len as u64;
        len
    }

    /// The bytes of all its packets. The number is kept, not summed.
    pub fn bytes(&self) -> u64
        ensures { result ≡ size self.now.packets }
    {
        self.bytes
    }

    /// The number of its packets.
    pub fn count(&self) -> u64
        ensures { result ≡ count self.now.packets }
    {
        self.packets.len() as u64
    }

    /// Its limit.
    pub fn limit(&self) -> Limit
        ensures { result ≡ self.now.limit }
    {
        self.limit
    }

    /// Changes the limit. No packet leaves, also where the new limit is below what the queue holds.
    pub fn set_limit(&mut self, limit: Limit)
        ensures { self.new ≡ record self.old { limit = limit } }
    {
        self.limit = limit;
    }

    /// Loses every packet, front first, with the cause `Purged`. The places stay reserved.
    pub fn purge<S: Sink>(&mut self, sink: &mut S)
        requires { count self.old.packets ≤ (S.state sink.old).room }
        ensures empty { self.new ≡ record self.old { packets = [] } }
        ensures lost { AreLost Cause.Purged self.old.packets (S.state sink.old) (S.state sink.new) }
        ensures kept { S.keeps sink.old sink.new }
    {
        while let Some(stamped) = self.take() {
            sink.lost(stamped.packet, Cause::Purged);
        }
    }
}

// Appends the first of these packets, for all of which there is a place, to one that is out of its range or too long.
#[inline(always)]
fn push_burst(ring: &mut Ring, packets: &[StoredPacket], longest: u16, now: Moment) -> (usize, u64)
    requires places { length ring.old.packets + length packets.now ≤ ring.old.places }
    requires few { length packets.now ≤ most_places }
    ensures most { result.0 ≤ length packets.now }
    ensures taken { All (IsShort longest) (take result.0 packets.now) }
    ensures widths { All HasWidths (take result.0 packets.now) }
    ensures next { IfSome (slice_get packets.now result.0) (λ c. IsShort longest c → ⊥) }
    ensures bytes { result.1 ≡ sum_by (λ (p : Descriptor). p.len) (map descriptor (take result.0 packets.now)) }
    ensures after { ring.new ≡ record ring.old { packets = ring.old.packets ++ stamped_at now (map descriptor (take result.0 packets.now)) } }
{
    let mut bytes = 0;
    for i in 0..packets.len() {
        let packet = &packets[i];
        if !is_short(packet, longest) {
            return (i, bytes);
        }
        ring.push_stored(packet, now);
        bytes += u64::from(packet.len);
    }
    (packets.len(), bytes)
}

// Whether each field of a packet is within its range, and it has no more bytes than `longest`.
#[inline(always)]
fn is_short(packet: &StoredPacket, longest: u16) -> bool
    ensures means { result ≡ true → IsShort longest packet.now }
    ensures comes { result ≡ false → IsShort longest packet.now → ⊥ }
    ensures widths { HasWidths packet.now }
{
    // That a number fits its field is known where it is read.
    let _port = packet.port;
    let _number = packet.number;
    let _buf = packet.buf;
    let _hash = packet.hash;
    let _len = packet.len;
    packet.in_range() && packet.len <= longest
}

// Takes so many packets from the front into these places, and returns their bytes.
#[inline(always)]
fn pop_burst<T: Told>(ring: &mut Ring, places: &mut [T], most: usize) -> u64
    requires queued { most ≤ length ring.old.packets }
    requires places { most ≤ length places.old }
    requires few { most ≤ most_places }
    ensures bytes { result ≡ size (take most ring.old.packets) }
    ensures told { places.new ≡ map (λ (s : Stamped). T.told s.packet) (take most ring.old.packets) ++ drop most places.old }
    ensures rest { ring.new ≡ record ring.old { packets = drop most ring.old.packets } }
{
    let mut bytes = 0;
    for i in 0..most {
        let front = ring.pop();
        bytes += u64::from(front.packet.len());
        places[i] = T::tell(&front.packet);
    }
    bytes
}

impl Queue for Fifo {
    ghost use Rattle.std.specs.Prelude.{◌≡◌, refl};
    ghost use Rattle.std.proofs.Common.{◌∙◌};
    ghost use Rattle.q_codel.specs.FifoState.{FifoState};

    ghost packets = { λ f. f.packets };

    ghost keeps = { λ f g. g ≡ record f { packets = g.packets } };

    fn head(&self) -> Option<Stamped> {
        Fifo::head(self)
    }

    fn take(&mut self) -> Option<Stamped> {
        Fifo::take(self)
    }

    fn front(&self) -> Option<Front> {
        Fifo::front(self)
    }

    fn take_into(&mut self, out: &mut KeptPacket) {
        let _ = Fifo::take_into(self, out);
    }

    fn bytes(&self) -> u64 {
        Fifo::bytes(self)
    }

    fn count(&self) -> u64 {
        Fifo::count(self)
    }

    ghost keeps_same = { λ f. refl };

    ghost keeps_on = { λ f g h e d. Prim.cc };
}
