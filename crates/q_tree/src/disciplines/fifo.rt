//! pfifo and bfifo: how one is made, refuses, enqueues, dequeues, shows its packet, is ready, and changes (tc-pfifo(8), tc-bfifo(8)).
ghost use Rattle.std.specs.Prelude.{◌≡◌, ◌<◌, ◌≤◌, ◌*◌, [], IfOk, IsOk, List, OnErr, drop, length, option_map};
ghost use Rattle.std.specs.Prelude.{if◌then◌else◌, slice_get, true, unwrap_or};
ghost use Rattle.q_codel.specs.FifoState.{takes};
ghost use Rattle.q_fqcodel.specs.Oldest.{first_arrival};
ghost use Rattle.q_model.specs.Beneath.{packets_of};
ghost use Rattle.q_model.specs.Make.{implicit_pfifo};
ghost use Rattle.q_model.specs.Tally.{no_totals};
ghost use Rattle.q_model.specs.declared.filter.Filter.{Filter};
ghost use Rattle.q_packet.specs.declared.cause.Cause.TheVariants.{OverLimit};
ghost use Rattle.q_packet.specs.declared.stamped.Stamped.{Stamped};
ghost use Rattle.q_tree.specs.answers.ReadyAt.{of_fifo};
ghost use Rattle.q_tree.specs.arrival.ArriveSteps.{HasArrived, HasComeIn, IsPlacedIn, nothing_lost};
ghost use Rattle.q_tree.specs.commands.Changing.{bfifo_answer, pfifo_answer};
ghost use Rattle.q_tree.specs.commands.DisciplineChanges.{IsChangedBy};
ghost use Rattle.q_tree.specs.commands.Making.{IsNewNode};
ghost use Rattle.q_tree.specs.commands.Planning.{device_of};
ghost use Rattle.q_tree.specs.declared.route.choice.Choice.TheVariants.{Here, Refused};
ghost use Rattle.q_tree.specs.declared.commands.discipline_change.DisciplineChange.TheVariants.{SetLimit};
ghost use Rattle.q_tree.specs.declared.node.Discipline.TheVariants as code;

use crate::answers::ready_at::Outlook;
use crate::arrival::arrived::{Arrived, refuse};
use crate::arrival::outcome::Outcome;
use crate::commands::discipline_change::DisciplineChange;
use crate::commands::planner::Planner;
use crate::counters::Counters;
use crate::departure::held::Held;
use crate::departure::shown::Shown;
use crate::filters::Filters;
use crate::node::{Discipline, Node};
use crate::route::choice::Choice;
use q_codel::{Fifo, Limit, Sink};
use q_model::{Handle, Refusal};
use q_packet::{Cause, KeptPacket, Moment};
use std::alloc::{AllocError, Global};

impl Node {
    ghost use Rattle.q_model.specs.Tally.{no_counts};
    ghost use Rattle.q_model.specs.Node as spec;
    ghost use Rattle.q_model.specs.Make.{node_of};

    /// Makes a fifo without packets, which has counted nothing. It allocates nothing yet.
    pub(crate) fn fifo(alloc: Global, handle: Option<Handle>, limit: Limit) -> Node
        ensures own { result.own ≡ (node_of handle (spec.Fifo limit []) []).own }
        ensures counts { result.memory.counts ≡ no_counts }
        ensures places { result.memory.places ≡ 0 }
        ensures alone { result.below ≡ spec.none }
    {
        Node {
            handle,
            held: Held::nothing(),
            filters: Filters::none(alloc),
            row: Counters::none(),
            discipline: Discipline::Fifo(Fifo::new(alloc, limit)),
        }
    }
}

impl Planner<'_> {
    /// Makes the leaf of a place where nothing else is, but below a tbf: a pfifo of the device's queue length.
    pub(crate) fn implicit_pfifo(&self) -> Node
        ensures { IsNewNode result (implicit_pfifo (device_of self.now)) }
    {
        let packets = u64::from(self.txqueuelen);
        Node::fifo(self.alloc, None, Limit::Packets(packets))
    }

    /// Returns how many bytes a bfifo takes: as many as are given, or those of the device's queue of packets as long as the mtu.
    pub(crate) fn bfifo_bytes(&self, limit: Option<u32>) -> u64
        ensures { result ≡ unwrap_or limit (self.now.txqueuelen * self.now.mtu) }
    {
        match limit {
            None => u64::from(self.txqueuelen) * u64::from(self.mtu),
            Some(bytes) => u64::from(bytes),
        }
    }
}

/// Returns where a packet goes: into the fifo itself. It is refused at the limit (tc-pfifo(8)).
#[inline(always)]
pub(crate) fn choose(fifo: &Fifo, packet: &KeptPacket) -> Choice
    ensures { result ≡ (if takes fifo.now.limit fifo.now.packets packet.now.len then Here else Refused OverLimit) }
{
    if !fifo.fits(packet.stored.len) {
        return Choice::Refused(Cause::OverLimit);
    }
    Choice::Here
}

/// Queues a packet behind the others, or refuses it (tc-pfifo(8)). Returns whether it was kept; what was lost is in `lost`.
///
/// # Errors
///
/// Returns `AllocError` if an allocation fails; nothing is queued or lost then.
#[inline(always)]
pub(crate) fn enqueue_in_fifo<S: Sink>(
    fifo: &mut Fifo,
    packet: &KeptPacket,
    now: Moment,
    lost: &mut Outcome,
    sink: &mut S,
) -> Result<Arrived, AllocError>
    requires sink { 1 ≤ (S.state sink.old).room }
    requires clean { lost.old ≡ nothing_lost }
    ensures arrives { (filters : List Filter) → HasArrived result (λ outcome. HasComeIn now packet.now filters (code.Fifo fifo.old) (code.Fifo fifo.new) outcome (S.state sink.old) (S.state sink.new))
        (IsPlacedIn (code.Fifo fifo.old) (code.Fifo fifo.new)) (takes fifo.old.limit fifo.old.packets packet.now.len ≡ true → length fifo.old.packets < fifo.old.places)
        lost.new (S.state sink.old) (S.state sink.new) }
    ensures kept { S.keeps sink.old sink.new }
{
    match choose(fifo, packet) {
        Choice::Here => {}
        Choice::Refused(cause) => return Ok(refuse(packet, cause, lost, sink)),
        Choice::Child(_) => unreachable!(),
    }
    fifo.reserve()?;
    fifo.put_from(packet, now);
    Ok(Arrived::kept())
}

/// Dequeues the head of a fifo into `out`, which stays as it is where the fifo is empty. Returns what the fifo shows.
#[inline(always)]
pub(crate) fn dequeue_head(fifo: &mut Fifo, out: &mut KeptPacket) -> Shown
    ensures shown { result.packet ≡ option_map (λ (s : Stamped). s.packet) (slice_get fifo.old.packets 0) }
    ensures dropped { result.dropped ≡ no_totals }
    ensures marked { result.marked ≡ no_totals }
    ensures packet { out.new ≡ unwrap_or result.packet out.old }
    ensures rest { fifo.new ≡ record fifo.old { packets = drop 1 fifo.old.packets } }
{
    let len = fifo.take_into(out);
    if len == 0 {
        return Shown::at_hand(&None);
    }
    Shown::quiet(out, len)
}

/// Returns the packet at the head of a fifo; `None` where the fifo is empty.
pub(crate) fn first_packet(fifo: &Fifo) -> Option<KeptPacket>
    ensures { result ≡ slice_get (packets_of fifo.now.packets) 0 }
{
    fifo.first()
}

/// Returns when the packet at the head of a fifo arrived; `None` where the fifo is empty.
pub(crate) fn first_arrival(fifo: &Fifo) -> Option<Moment>
    ensures { result ≡ first_arrival fifo.now.packets }
{
    Some(fifo.front()?.at)
}

/// Returns what is known of the next packet of a fifo with this head: the fifo shows it now.
pub(crate) fn of_fifo(head: Option<KeptPacket>, now: Moment) -> Outlook
    ensures { result ≡ of_fifo now head }
{
    let Some(packet) = head else {
        return Outlook::NO_PACKET;
    };
    Outlook::at_hand(now, packet.len())
}

impl Node {
    /// Returns the change of a pfifo to this limit in packets; where none is given, it keeps the one that it has.
    ///
    /// # Errors
    ///
    /// Returns `Refusal::CannotChange` if the node is no pfifo.
    pub(crate) fn packet_limit(&self, limit: Option<u32>) -> Result<DisciplineChange, Refusal>
        ensures { result ≡ pfifo_answer limit self.now.own.discipline }
    {
        let Discipline::Fifo(fifo) = &self.discipline else {
            return Err(Refusal::CannotChange);
        };
        let Limit::Packets(old) = fifo.limit() else {
            return Err(Refusal::CannotChange);
        };
        let packets = limit.map_or(old, u64::from);
        Ok(DisciplineChange::SetLimit(Limit::Packets(packets)))
    }

    /// Returns the change of a bfifo to this limit in bytes; where none is given, it keeps the one that it has.
    ///
    /// # Errors
    ///
    /// Returns `Refusal::CannotChange` if the node is no bfifo.
    pub(crate) fn byte_limit(&self, limit: Option<u32>) -> Result<DisciplineChange, Refusal>
        ensures { result ≡ bfifo_answer limit self.now.own.discipline }
    {
        let Discipline::Fifo(fifo) = &self.discipline else {
            return Err(Refusal::CannotChange);
        };
        let Limit::Bytes(old) = fifo.limit() else {
            return Err(Refusal::CannotChange);
        };
        let bytes = limit.map_or(old, u64::from);
        Ok(DisciplineChange::SetLimit(Limit::Bytes(bytes)))
    }
}

impl Discipline {
    /// Gives a fifo another limit; its packets stay (tc-pfifo(8)).
    pub(crate) fn set_limit(&mut self, new: Limit)
        ensures { IsChangedBy (SetLimit new) self.old self.new }
    {
        if let Discipline::Fifo(fifo) = self {
            fifo.set_limit(new);
        }
    }
}
