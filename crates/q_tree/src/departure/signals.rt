ghost use Rattle.std.specs.Prelude.{◌≡◌, ◌<◌, ◌+◌, ◌^◌, true};
ghost use Rattle.q_tree.specs.arrival.Arrivals.{plus};
ghost use Rattle.q_tree.specs.departure.AskSteps.{no_signals};

use crate::counters::booking::{NOTHING, sum};
use q_model::Totals;

/// What CoDel dropped and marked while nodes were asked.
#[derive(Clone, Copy)]
pub(crate) struct Signals {
    pub(crate) dropped: Totals,
    pub(crate) marked: Totals,
}

/// Nothing was dropped, and nothing was marked.
pub(crate) const NO_SIGNALS: Signals = Signals {
    dropped: NOTHING,
    marked: NOTHING,
};

impl Signals {
    /// Whether nothing was dropped and nothing was marked.
    #[inline(always)]
    pub(crate) fn is_nothing(&self) -> bool
        ensures means { result ≡ true → self.now ≡ no_signals }
        ensures comes { self.now ≡ no_signals → result ≡ true }
    {
        self.dropped.packets == 0
            && self.dropped.bytes == 0
            && self.marked.packets == 0
            && self.marked.bytes == 0
    }

    /// Adds what asking one more node came to.
    #[cold]
    #[inline(never)]
    pub(crate) fn add(&mut self, next: &Signals)
        requires dropped_packets { self.old.dropped.packets + next.now.dropped.packets < 2 ^ 64 }
        requires dropped_bytes { self.old.dropped.bytes + next.now.dropped.bytes < 2 ^ 64 }
        requires marked_packets { self.old.marked.packets + next.now.marked.packets < 2 ^ 64 }
        requires marked_bytes { self.old.marked.bytes + next.now.marked.bytes < 2 ^ 64 }
        ensures { self.new ≡ record { dropped = plus self.old.dropped next.now.dropped; marked = plus self.old.marked next.now.marked } }
    {
        self.dropped = sum(self.dropped, next.dropped);
        self.marked = sum(self.marked, next.marked);
    }
}
