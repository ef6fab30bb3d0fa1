ghost use Rattle.std.specs.Prelude.{◌≡◌, ◌≤◌, ◌+◌, [], ◌-◌, drop, length, slice_get, OnOk, OnErr};

use crate::loss::Loss;
use crate::sink::Sink;
use q_packet::{Cause, Packet};
use std::alloc::{AllocError, Global};
use std::collections::VecDeque;
use std::marker::Model;

/// A sink that keeps what was lost, oldest first, until it is reaped.
///
/// A contract sees it as the record `LossList`: the losses that wait, and how many there are places for. Only
/// [`Losses::reserve`] allocates.
#[derive(Drop)]
pub struct Losses {
    waiting: VecDeque<Loss>,
}

impl Model for Losses {
    ghost use Rattle.std.specs.VecDeque.{deque_capacity};
    ghost use Rattle.q_codel.specs.Losses.{LossList};

    ghost Value = { LossList };

    ghost view = { λ l. record { waiting = l.waiting.items; places = deque_capacity l.waiting } };
}

impl Losses {
    /// No losses, and no places for any: it allocates nothing yet.
    pub fn new(alloc: Global) -> Losses
        ensures { result.waiting ≡ [] }
    {
        Losses {
            waiting: VecDeque::new(alloc),
        }
    }

    /// Makes places for `more` losses beside those that wait. It fails only if there were fewer and an allocation failed.
    pub fn reserve(&mut self, more: usize) -> Result<(), AllocError>
        ensures same { self.new ≡ record self.old { places = self.new.places } }
        ensures grows { self.old.places ≤ self.new.places }
        ensures ok { OnOk result (length self.new.waiting + more ≤ self.new.places) }
        ensures full { OnErr result (self.old.places + 1 ≤ length self.old.waiting + more) }
    {
        // Places that are there need no call.
        if self.waiting.capacity() - self.waiting.len() >= more {
            return Ok(());
        }
        self.grow(more)
    }

    // The same where there may be too few.
    #[cold]
    #[inline(never)]
    fn grow(&mut self, more: usize) -> Result<(), AllocError>
        ensures same { self.new ≡ record self.old { places = self.new.places } }
        ensures grows { self.old.places ≤ self.new.places }
        ensures ok { OnOk result (length self.new.waiting + more ≤ self.new.places) }
        ensures full { OnErr result (self.old.places + 1 ≤ length self.old.waiting + more) }
    {
        self.waiting.reserve(more)
    }

    /// The oldest loss that waits, which leaves; `None` where none waits.
    pub fn reap(&mut self) -> Option<Loss>
        ensures oldest { result ≡ slice_get self.old.waiting 0 }
        ensures rest { self.new ≡ record self.old { waiting = drop 1 self.old.waiting } }
    {
        self.waiting.pop_front()
    }

    /// The number of losses that wait.
    pub fn count(&self) -> u64
        ensures { result ≡ length self.now.waiting }
    {
        self.waiting.len() as u64
    }

    /// The number of losses that there are places for beside those that wait.
    pub fn room(&self) -> u64
        ensures { result ≡ self.now.places - length self.now.waiting }
    {
        (self.waiting.capacity() - self.waiting.len()) as u64
    }
}

impl Sink for Losses {
    ghost use Rattle.std.specs.Prelude.{◌≡◌, ◌-◌, length, refl};

    ghost state = { λ l. record { losses = l.waiting; room = l.places - length l.waiting } };

    ghost keeps = { λ l m. m ≡ record l { waiting = m.waiting } };

    fn lost(&mut self, packet: Packet, cause: Cause) {
        self.waiting.push_back_reserved(Loss { packet, cause });
    }

    ghost keeps_same = { λ l. refl };

    ghost keeps_on = { λ l m n e d. Prim.cc };
}
