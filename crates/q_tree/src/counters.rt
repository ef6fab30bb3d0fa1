ghost use Rattle.std.specs.Prelude.{◌≡◌, ◌<◌, ◌^◌};
ghost use Rattle.q_tree.specs.counters.CountersSeen.{HasArrivals, no_row};

pub(crate) mod booking;

use q_model::{Row, Totals};
use std::marker::Model;

/// What a node counted, and what is queued there and below: each arrival, send and loss writes both. What arrived was sent, was
/// refused, was dropped or is queued, which the type keeps.
///
/// Those of packets are kept apart from those of bytes, and what is queued apart from what arrived and was sent: of two numbers side by
/// side a compiler makes one wide number, and adds to that in more steps.
///
/// A contract sees the row of the node.
#[derive(Drop)]
pub(crate) struct Counters {
    pub(crate) arrived_packets: u64,
    pub(crate) sent_packets: u64,
    pub(crate) refused_packets: u64,
    pub(crate) dropped_packets: u64,
    pub(crate) queued_packets: u64,
    pub(crate) marked_packets: u64,
    pub(crate) arrived_bytes: u64,
    pub(crate) sent_bytes: u64,
    pub(crate) refused_bytes: u64,
    pub(crate) dropped_bytes: u64,
    pub(crate) queued_bytes: u64,
    pub(crate) marked_bytes: u64,
}

impl Model for Counters {
    ghost use Rattle.q_model.specs.declared.row.Row.{Row};

    ghost Value = { Row };

    ghost use Rattle.q_tree.specs.counters.CountersSeen.{counters_seen, AddsUp};

    ghost view = { counters_seen };

    ghost invariant = { AddsUp };
}

impl Counters {
    /// Nothing was counted yet.
    pub(crate) fn none() -> Counters
        ensures { result ≡ no_row }
    {
        Counters {
            arrived_packets: 0,
            sent_packets: 0,
            refused_packets: 0,
            dropped_packets: 0,
            queued_packets: 0,
            marked_packets: 0,
            arrived_bytes: 0,
            sent_bytes: 0,
            refused_bytes: 0,
            dropped_bytes: 0,
            queued_bytes: 0,
            marked_bytes: 0,
        }
    }

    /// What arrived.
    #[inline(always)]
    pub(crate) fn arrived(&self) -> Totals
        ensures { result ≡ self.now.arrived }
    {
        Totals {
            packets: self.arrived_packets,
            bytes: self.arrived_bytes,
        }
    }

    /// What is queued.
    #[inline(always)]
    pub(crate) fn queued(&self) -> Totals
        ensures { result ≡ self.now.queued }
    {
        Totals {
            packets: self.queued_packets,
            bytes: self.queued_bytes,
        }
    }

    /// All of it.
    #[inline(always)]
    pub(crate) fn row(&self) -> Row
        ensures { result ≡ self.now }
    {
        Row {
            arrived: self.arrived(),
            sent: Totals {
                packets: self.sent_packets,
                bytes: self.sent_bytes,
            },
            refused: Totals {
                packets: self.refused_packets,
                bytes: self.refused_bytes,
            },
            dropped: Totals {
                packets: self.dropped_packets,
                bytes: self.dropped_bytes,
            },
            queued: self.queued(),
            marked: Totals {
                packets: self.marked_packets,
                bytes: self.marked_bytes,
            },
        }
    }

    /// What is counted of arrivals fits, which the numbers show. It does nothing: its clause is for the proofs of its callers.
    #[inline(always)]
    pub(crate) fn fit(&self)
        ensures { HasArrivals self.now }
    {
        fits(self.arrived_packets);
        fits(self.arrived_bytes);
    }
}

// A number fits its type. It does nothing.
#[inline(always)]
fn fits(number: u64)
    ensures { number < 2 ^ 64 }
{
    let _ = number;
}
