ghost use Rattle.std.specs.Prelude.{◌≡◌, ◌≤◌, [], ◌∷◌, Some, true};
ghost use Rattle.q_codel.specs.Losses.{IsTold};
ghost use Rattle.q_model.specs.Conserved.{IsBalanced};
ghost use Rattle.q_model.specs.Step.{fate_of};
ghost use Rattle.q_model.specs.Tally.{no_totals, with_packet};
ghost use Rattle.q_tree.specs.arrival.Arrivals.{CanCount, IsLostOf, with_arrival};
ghost use Rattle.q_tree.specs.arrival.ArriveSteps.{nothing_lost};

use crate::arrival::outcome::Outcome;
use crate::counters::Counters;
use crate::counters::booking::{NOTHING, book_outcome, one_packet};
use crate::tree::fate_of;
use q_codel::Sink;
use q_model::Fate;
use q_packet::{Cause, KeptPacket};
use std::marker::Model;
use std::snapshot::Snapshot;

/// What an arrival came to. A contract sees the outcome, which goes up from node to node in a place of the caller's, since
/// mostly nothing is lost, and then nobody reads it.
#[derive(Drop)]
pub(crate) struct Arrived {
    is_kept: bool,
    outcome: Snapshot<Outcome>,
}

/// Nothing is lost.
pub(crate) const NOTHING_LOST: Outcome = Outcome {
    loss: None,
    refused: NOTHING,
    dropped: NOTHING,
};

impl Model for Arrived {
    ghost use Rattle.std.specs.Prelude.{◌≡◌, true};
    ghost use Rattle.q_tree.specs.arrival.ArriveSteps.{nothing_lost};
    ghost use Rattle.q_tree.specs.declared.arrival.outcome.Outcome as specs;

    ghost Value = { specs.Outcome };

    ghost view = { λ a. a.outcome.value };

    ghost invariant = { λ a. a.is_kept ≡ true → a.outcome.value ≡ nothing_lost };
}

impl Arrived {
    /// The packet is kept, and none is lost for it.
    #[inline(always)]
    pub(crate) fn kept() -> Arrived
        ensures { result ≡ nothing_lost }
    {
        Arrived {
            is_kept: true,
            outcome: Snapshot::of(&NOTHING_LOST),
        }
    }

    /// This outcome.
    #[inline(always)]
    pub(crate) fn with(outcome: &Outcome) -> Arrived
        ensures { result ≡ outcome.now }
    {
        Arrived {
            is_kept: false,
            outcome: Snapshot::of(outcome),
        }
    }

    /// Whether nothing is lost.
    #[inline(always)]
    fn is_kept(&self) -> bool
        ensures { result ≡ true → self.now ≡ nothing_lost }
    {
        self.is_kept
    }

    /// What became of the packet, whose outcome is in this place.
    #[inline(always)]
    pub(crate) fn fate(&self, outcome: &Outcome) -> Fate
        requires told { outcome.now ≡ self.now }
        ensures { result ≡ fate_of self.now.loss }
    {
        if self.is_kept() {
            return Fate::Kept;
        }
        fate_of(outcome.loss)
    }
}

/// Refuses a packet for this cause.
#[cold]
#[inline(never)]
pub(crate) fn refuse<S: Sink>(
    packet: &KeptPacket,
    cause: Cause,
    lost: &mut Outcome,
    sink: &mut S,
) -> Arrived
    requires { 1 ≤ (S.state sink.old).room }
    ensures outcome { result ≡ record { loss = Some cause; refused = with_packet no_totals packet.now; dropped = no_totals } }
    ensures lost_is { lost.new ≡ result }
    ensures told { IsTold (record { packet = packet.now; cause = cause } ∷ []) (S.state sink.old) (S.state sink.new) }
    ensures kept { S.keeps sink.old sink.new }
{
    sink.lost(packet.packet(), cause);
    *lost = Outcome {
        loss: Some(cause),
        refused: one_packet(packet),
        dropped: NOTHING,
    };
    Arrived::with(lost)
}

/// Books a packet that has arrived, with all that was lost for it at the node or below.
#[inline(always)]
pub(crate) fn book_arrival(
    row: &mut Counters,
    packet: &KeptPacket,
    arrived: &Arrived,
    outcome: &Outcome,
)
    requires balanced { IsBalanced row.old }
    requires room { CanCount row.old.arrived packet.now }
    requires lost { IsLostOf packet.now arrived.now row.old.queued }
    requires told { outcome.now ≡ arrived.now }
    ensures { row.new ≡ with_arrival packet.now arrived.now row.old }
{
    if arrived.is_kept() {
        book_kept(row, packet);
        return;
    }
    book_outcome(row, packet, outcome);
}

/// Books a packet that has arrived and is kept, and for which none is lost.
#[inline(always)]
pub(crate) fn book_kept(row: &mut Counters, packet: &KeptPacket)
    requires balanced { IsBalanced row.old }
    requires room { CanCount row.old.arrived packet.now }
    ensures { row.new ≡ with_arrival packet.now nothing_lost row.old }
{
    // The length is read before the row is written, and once: a compiler does not know that they are apart.
    let len = u64::from(packet.stored.len);
    row.arrived_packets += 1;
    row.arrived_bytes += len;
    row.queued_packets += 1;
    row.queued_bytes += len;
}
