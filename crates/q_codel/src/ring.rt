//! The memory of a fifo: cells in a ring, which doubles when it is full and is never copied otherwise.
ghost use Rattle.std.specs.Prelude.{◌≡◌, ◌≤◌, ◌<◌, ◌%◌, ◌^◌, [], ◌∷◌, ◌++◌, length, drop, slice_get, Some, MatchOption, OnOk, OnErr};
ghost use Rattle.q_codel.specs.Ring.{IsPower};
ghost use Rattle.q_packet.specs.Stored.{descriptor, IsStored};

use crate::cell::Cell;
use q_packet::{KeptPacket, Moment, SOME_KEPT, StoredPacket};
use std::alloc::{AllocError, Global};
use std::marker::Model;

// The most places of a ring: more than any machine has memory for.
const MOST_PLACES: usize = 1 << 47;

// The places of a ring that grows for the first time, a power of two.
const FIRST_PLACES: usize = 4;

/// Packets in the order in which they came, in a ring of cells whose number is a power of two.
///
/// Packets are numbered as they come, by counters that go round at 2^64, and the low bits of a packet's number are the index of its cell.
/// So a step is one addition; and once the cells are doubled by a copy of them all, each packet is in the cell of its number.
#[derive(Drop)]
pub(crate) struct Ring {
    cells: Vec<Cell>,
    // The numbers of the packet in front and of the next one to come.
    first: usize,
    next: usize,
}

impl Model for Ring {
    ghost use Rattle.q_codel.specs.Ring.{RingState, IsRing, standing, between};
    ghost use Rattle.std.specs.Prelude.{length};

    ghost Value = { RingState };

    ghost view = { λ r. record {
      packets = standing r.cells.items r.first (between r.first r.next);
      places = length r.cells.items;
    } };

    ghost invariant = { λ r. IsRing r.cells.items r.first r.next };
}

impl Ring {
    /// No packets, and no places for any: it allocates nothing yet.
    pub(crate) fn new(alloc: Global) -> Ring
        ensures { result ≡ record { packets = []; places = 0 } }
    {
        Ring {
            cells: Vec::new(alloc),
            first: 0,
            next: 0,
        }
    }

    /// The number of its packets.
    #[inline(always)]
    pub(crate) fn len(&self) -> usize
        ensures value { result ≡ length self.now.packets }
        ensures within { result ≤ self.now.places }
    {
        self.next.wrapping_sub(self.first)
    }

    /// How many packets there are places for, those of its packets among them.
    #[inline(always)]
    pub(crate) fn places(&self) -> usize
        ensures { result ≡ self.now.places }
    {
        self.cells.len()
    }

    /// Doubles the places; from none to four. It fails if their allocation fails, or there are 2^47 of them.
    pub(crate) fn grow(&mut self) -> Result<(), AllocError>
        ensures packets { self.new.packets ≡ self.old.packets }
        ensures grown { OnOk result (self.old.places < self.new.places) }
        ensures within { self.new.places ≤ 2 ^ 47 }
        ensures kept { OnErr result (self.new.places ≡ self.old.places) }
    {
        let places = self.cells.len();
        if places == 0 {
            let unread = Cell {
                packet: SOME_KEPT,
                at: Moment::zero(),
            };
            return self.cells.resize(FIRST_PLACES, unread);
        }
        if places >= MOST_PLACES {
            return Err(AllocError);
        }
        // Each packet is in its cell of both halves then, so that the counters say where it is as before.
        self.cells.extend_from_within(..)
    }

    /// Appends a packet, for which there has to be a place. It is copied once.
    #[inline(always)]
    pub(crate) fn push(&mut self, packet: &KeptPacket, at: Moment)
        requires { length self.old.packets < self.old.places }
        ensures { self.new ≡ record self.old { packets = self.old.packets ++ record { packet = packet.now; at = at } ∷ [] } }
    {
        let cell = cell_of(self.next, self.cells.len());
        self.cells[cell] = Cell {
            packet: *packet,
            at,
        };
        self.next = self.next.wrapping_add(1);
    }

    /// The same of a stored packet, each field of which is within its range. It is copied once, from the caller's memory to its cell.
    #[inline(always)]
    pub(crate) fn push_stored(&mut self, packet: &StoredPacket, at: Moment)
        requires place { length self.old.packets < self.old.places }
        requires in_range { IsStored packet.now }
        ensures { self.new ≡ record self.old { packets = self.old.packets ++ record { packet = descriptor packet.now; at = at } ∷ [] } }
    {
        let cell = cell_of(self.next, self.cells.len());
        self.cells[cell] = Cell {
            packet: KeptPacket::kept(packet),
            at,
        };
        self.next = self.next.wrapping_add(1);
    }

    /// A reference to the packet in front; `None` if there is none.
    #[inline(always)]
    pub(crate) fn front(&self) -> Option<&Cell>
        ensures { MatchOption result (self.now.packets ≡ []) (λ front. slice_get self.now.packets 0 ≡ Some front.now) }
    {
        if self.first == self.next {
            return None;
        }
        Some(&self.cells[cell_of(self.first, self.cells.len())])
    }

    /// Takes the packet in front, which is there. It is copied last, from its cell to where the caller wants it.
    #[inline(always)]
    pub(crate) fn pop(&mut self) -> Cell
        requires { 0 < length self.old.packets }
        ensures front { slice_get self.old.packets 0 ≡ Some result }
        ensures rest { self.new ≡ record self.old { packets = drop 1 self.old.packets } }
    {
        let cell = cell_of(self.first, self.cells.len());
        self.first = self.first.wrapping_add(1);
        self.cells[cell]
    }
}

// The cell of a packet's number: its remainder, which the low bits are.
#[inline(always)]
fn cell_of(number: usize, places: usize) -> usize
    requires { IsPower places }
    ensures value { result ≡ number % places }
    ensures within { result < places }
{
    number & (places - 1)
}
