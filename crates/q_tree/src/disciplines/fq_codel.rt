//! fq_codel: how one is made, enqueues, dequeues, shows its packet, is ready, and changes (tc-fq_codel(8)).
ghost use Rattle.std.specs.Prelude.{◌≡◌, ◌<◌, ◌≤◌, ◌+◌, IfOk, IsOk, List, None, OnErr, OnOk, Some, option_map, unwrap_or, if◌then◌else◌};
ghost use Rattle.q_fqcodel.specs.FqState.{first_state, packets_of};
ghost use Rattle.q_codel.specs.declared.codel.Taken.{Taken};
ghost use Rattle.q_codel.specs.Losses.{AreLost};
ghost use Rattle.q_fqcodel.specs.Take.{IsFrontLate, after_sending, dropped_from, head_sent, selected, sent_from};
ghost use Rattle.q_packet.specs.declared.stamped.Stamped.{Stamped};
ghost use Rattle.q_fqcodel.specs.Turns.{IsSettled};
ghost use Rattle.std.specs.Option.{option_map_or};
ghost use Rattle.q_model.specs.Ask.{Asked, ask_fq_codel};
ghost use Rattle.q_model.specs.Beneath as beneath;
ghost use Rattle.q_model.specs.Beneath.{beneath};
ghost use Rattle.q_model.specs.Make.{with_options};
ghost use Rattle.q_model.specs.Node.{Own};
ghost use Rattle.q_model.specs.Tally.{no_totals, with_packet};
ghost use Rattle.q_tree.specs.answers.ReadyAt.{of_flows};
ghost use Rattle.q_tree.specs.arrival.ArriveSteps.{IsPutInFlow, nothing_lost};
ghost use Rattle.q_tree.specs.arrival.PutSteps.{CanFlow};
ghost use Rattle.q_tree.specs.commands.Changing.{fq_codel_answer};
ghost use Rattle.q_tree.specs.commands.DisciplineChanges.{IsChangedBy};
ghost use Rattle.q_tree.specs.departure.AskSteps.{IsShown, no_signals, signals_of};
ghost use Rattle.q_tree.specs.departure.Holding.{held_with};
ghost use Rattle.q_tree.specs.declared.commands.discipline_change.DisciplineChange.TheVariants.{SetOptions};

use crate::answers::ready_at::Outlook;
use crate::arrival::arrived::Arrived;
use crate::arrival::outcome::Outcome;
use crate::commands::discipline_change::DisciplineChange;
use crate::counters::booking::{NOTHING, difference, one_packet};
use crate::departure::held::Held;
use crate::departure::shown::Shown;
use crate::departure::signals::{NO_SIGNALS, Signals};
use crate::node::{Discipline, Node};
use q_codel::Sink;
use q_fqcodel::{FqCodel, Settings};
use q_model::{FqCodelOptions, Refusal, Totals};
use q_packet::{Cause, KeptPacket, Moment};
use std::alloc::{AllocError, Global};

/// Makes the queue of an fq_codel with these settings.
///
/// # Errors
///
/// Returns `AllocError` if an allocation fails.
pub(crate) fn new_queue(alloc: Global, settings: Settings) -> Result<Box<FqCodel>, AllocError>
    ensures state { IfOk result (λ q. q.value.state ≡ first_state settings) }
    ensures places { IfOk result (λ q. q.value.places ≡ 0) }
{
    let queue = FqCodel::new(alloc, settings)?;
    Ok(Box::new(alloc, queue)?)
}

// Returns the old settings, with those that are given in place of theirs.
pub(crate) fn with_options(options: &FqCodelOptions, old: Settings) -> Settings
    ensures { result ≡ with_options options.now old }
{
    options.ranges();
    let _ = &old.mtu;
    Settings {
        limit: options.limit.unwrap_or(old.limit),
        flows: options.flows.unwrap_or(old.flows),
        quantum: options.quantum.unwrap_or(old.quantum),
        target: options.target.unwrap_or(old.target),
        interval: options.interval.unwrap_or(old.interval),
        ecn: options.ecn.unwrap_or(old.ecn),
        drop_batch: options.drop_batch.unwrap_or(old.drop_batch),
        mtu: old.mtu,
    }
}

/// Queues a packet in its flow, and counts what the fattest flow loses. Returns whether the packet was kept; what was lost is in `lost`.
///
/// # Errors
///
/// Returns `AllocError` if an allocation fails; nothing is queued or lost then.
pub(crate) fn enqueue_in_flows<S: Sink>(
    queue: &mut FqCodel,
    packet: &KeptPacket,
    now: Moment,
    lost: &mut Outcome,
    sink: &mut S,
) -> Result<Arrived, AllocError>
    requires flow { CanFlow packet.now queue.old.state }
    requires sink { packets_of queue.old.state.flows + 1 ≤ (S.state sink.old).room }
    requires clean { lost.old ≡ nothing_lost }
    ensures put { IfOk result (λ outcome. IsPutInFlow now packet.now queue.old.state queue.new.state outcome (S.state sink.old) (S.state sink.new)) }
    ensures place { OnOk result (packets_of queue.old.state.flows < queue.new.places) }
    ensures same { OnErr result (queue.new.state ≡ queue.old.state) }
    ensures not_lost { OnErr result (S.state sink.new ≡ S.state sink.old) }
    ensures grows { queue.old.places ≤ queue.new.places }
    ensures stays { packets_of queue.old.state.flows < queue.old.places → queue.new.places ≡ queue.old.places }
    ensures succeeds { packets_of queue.old.state.flows < queue.old.places → IsOk result }
    ensures lost_is { IfOk result (λ outcome. lost.new ≡ outcome) }
    ensures kept { S.keeps sink.old sink.new }
{
    queue.reserve()?;
    if queue.fits() {
        let _ = queue.put_from(packet, now, sink);
        return Ok(Arrived::kept());
    }
    Ok(enqueue_over(queue, packet, now, lost, sink))
}

// Does the same over the limit. It is a call by itself, so that the usual path makes no place for an outcome.
#[cold]
#[inline(never)]
fn enqueue_over<S: Sink>(
    queue: &mut FqCodel,
    packet: &KeptPacket,
    now: Moment,
    lost: &mut Outcome,
    sink: &mut S,
) -> Arrived
    requires place { packets_of queue.old.state.flows < queue.old.places }
    requires flow { CanFlow packet.now queue.old.state }
    requires sink { packets_of queue.old.state.flows + 1 ≤ (S.state sink.old).room }
    ensures put { IsPutInFlow now packet.now queue.old.state queue.new.state result (S.state sink.old) (S.state sink.new) }
    ensures places { queue.new.places ≡ queue.old.places }
    ensures lost_is { lost.new ≡ result }
    ensures kept { S.keeps sink.old sink.new }
{
    *lost = put_in_flow(queue, packet, now, sink);
    Arrived::with(lost)
}

// Puts a packet into its flow, and returns what the fattest flow loses for it.
#[inline(always)]
fn put_in_flow<S: Sink>(
    queue: &mut FqCodel,
    packet: &KeptPacket,
    now: Moment,
    sink: &mut S,
) -> Outcome
    requires place { packets_of queue.old.state.flows < queue.old.places }
    requires flow { CanFlow packet.now queue.old.state }
    requires sink { packets_of queue.old.state.flows + 1 ≤ (S.state sink.old).room }
    ensures put { IsPutInFlow now packet.now queue.old.state queue.new.state result (S.state sink.old) (S.state sink.new) }
    ensures places { queue.new.places ≡ queue.old.places }
    ensures kept { S.keeps sink.old sink.new }
{
    let dropped = queue.put_counted(packet, now, sink);
    Outcome {
        loss: dropped.itself.then_some(Cause::FatFlow),
        refused: NOTHING,
        dropped: Totals {
            packets: dropped.packets,
            bytes: dropped.bytes,
        },
    }
}

/// Dequeues the packet that the flow in front sends (RFC 8290, section 4.2) into `out`, and counts what CoDel drops and marks. Returns what
/// the fq_codel shows.
pub(crate) fn dequeue_flow<S: Sink>(
    queue: &mut FqCodel,
    out: &mut KeptPacket,
    now: Moment,
    signals: &mut Signals,
    sink: &mut S,
) -> Shown
    requires sink { packets_of queue.old.state.flows ≤ (S.state sink.old).room }
    requires clean { signals.old ≡ no_signals }
    ensures after { queue.new.state ≡ after_sending now (selected queue.old.state) }
    ensures places { queue.new.places ≡ queue.old.places }
    ensures shown { (own : Own) (below : List Asked) → IsShown (ask_fq_codel now own below queue.old.state) result }
    ensures packet { out.new ≡ unwrap_or result.packet out.old }
    ensures told { AreLost Cause.CoDel (dropped_from now (selected queue.old.state)) (S.state sink.old) (S.state sink.new) }
    ensures signals { signals.new ≡ signals_of result }
    ensures kept { S.keeps sink.old sink.new }
{
    match queue.pass_into(now, out) {
        Ok(passed) => {
            // CoDel drops none of an empty fq_codel.
            let Some(front) = passed else {
                return Shown::at_hand(&None);
            };
            return Shown::quiet(out, front.len);
        }
        Err(_) => {
            // Nobody holds the packet, so that nobody asks when it arrived.
            let mut since = Moment::zero();
            return dequeue_late(queue, out, &mut since, now, signals, sink);
        }
    }
}

// Does the same where CoDel found the packet in front late, and writes to `since` when the packet arrived. It is a call by itself, so that
// the usual path counts nothing and saves no registers.
#[cold]
#[inline(never)]
fn dequeue_late<S: Sink>(
    queue: &mut FqCodel,
    out: &mut KeptPacket,
    since: &mut Moment,
    now: Moment,
    signals: &mut Signals,
    sink: &mut S,
) -> Shown
    requires sink { packets_of queue.old.state.flows ≤ (S.state sink.old).room }
    requires settled { IsSettled queue.old.state }
    requires late { IsFrontLate now queue.old.state }
    requires clean { signals.old ≡ no_signals }
    ensures after { queue.new.state ≡ after_sending now queue.old.state }
    ensures places { queue.new.places ≡ queue.old.places }
    ensures given { result.packet ≡ option_map (λ (t : Taken). t.packet) (sent_from now queue.old.state) }
    ensures dropped { result.dropped ≡ beneath.totals_in (beneath.packets_of (dropped_from now queue.old.state)) }
    ensures marked { result.marked ≡ option_map_or (λ (t : Taken). if t.marked then with_packet no_totals t.packet else no_totals) (sent_from now queue.old.state) no_totals }
    ensures since { Some since.new ≡ option_map (λ (s : Stamped). s.at) (head_sent now queue.old.state) }
    ensures packet { out.new ≡ unwrap_or result.packet out.old }
    ensures told { AreLost Cause.CoDel (dropped_from now queue.old.state) (S.state sink.old) (S.state sink.new) }
    ensures signals { signals.new ≡ signals_of result }
    ensures kept { S.keeps sink.old sink.new }
{
    let (packets, bytes) = queue.queued();
    let sent = queue.take_late_into(now, out, sink);
    *since = sent.at;
    if !sent.dropped {
        return show_marked(sent.marked, out, signals);
    }
    let (packets_after, bytes_after) = queue.queued();
    let gone = Totals {
        packets: packets - packets_after,
        bytes: bytes - bytes_after,
    };
    let one = one_packet(out);
    *signals = Signals {
        dropped: difference(gone, one),
        marked: marking(sent.marked, out),
    };
    Shown::sending(out, signals)
}

// Returns what an fq_codel shows that dropped nothing for this packet. Mostly it was not marked either, and nothing is written then.
#[inline(always)]
fn show_marked(is_marked: bool, out: &KeptPacket, signals: &mut Signals) -> Shown
    requires { signals.old ≡ no_signals }
    ensures shown { result ≡ record { packet = Some out.now; dropped = no_totals; marked = if is_marked then with_packet no_totals out.now else no_totals } }
    ensures signals { signals.new ≡ signals_of result }
{
    if !is_marked {
        return Shown::sending(out, &NO_SIGNALS);
    }
    *signals = Signals {
        dropped: NOTHING,
        marked: one_packet(out),
    };
    Shown::sending(out, signals)
}

// Returns the totals of the packet where it was marked, and of nothing where it was not.
fn marking(is_marked: bool, packet: &KeptPacket) -> Totals
    ensures { result ≡ (if is_marked then with_packet no_totals packet.now else no_totals) }
{
    if is_marked {
        return one_packet(packet);
    }
    NOTHING
}

/// Dequeues the packet that the flow in front sends (RFC 8290, section 4.2), holds it in `held`, and counts what CoDel drops and marks.
/// Returns what the fq_codel shows.
#[inline(never)]
pub(crate) fn peek_flow<S: Sink>(
    queue: &mut FqCodel,
    held: &mut Held,
    now: Moment,
    signals: &mut Signals,
    sink: &mut S,
) -> Shown
    requires none { held.old ≡ None }
    requires sink { packets_of queue.old.state.flows ≤ (S.state sink.old).room }
    requires clean { signals.old ≡ no_signals }
    ensures after { queue.new.state ≡ after_sending now (selected queue.old.state) }
    ensures places { queue.new.places ≡ queue.old.places }
    ensures shown { (own : Own) (below : List Asked) → IsShown (ask_fq_codel now own below queue.old.state) result }
    ensures held { held.new ≡ held_with result.packet (option_map_or (λ (s : Stamped). s.at) (head_sent now (selected queue.old.state)) 0) }
    ensures told { AreLost Cause.CoDel (dropped_from now (selected queue.old.state)) (S.state sink.old) (S.state sink.new) }
    ensures signals { signals.new ≡ signals_of result }
    ensures kept { S.keeps sink.old sink.new }
{
    match queue.pass_into(now, &mut held.place) {
        Ok(passed) => {
            let Some(front) = passed else {
                return Shown::at_hand(&None);
            };
            held.since = front.at;
            held.holds = true;
            return Shown::quiet(&held.place, front.len);
        }
        Err(_) => {
            held.holds = true;
            return dequeue_late(queue, &mut held.place, &mut held.since, now, signals, sink);
        }
    }
}

/// Returns what is known of the next packet of an fq_codel with so many packets: it shows one now, but CoDel decides which when it is asked.
pub(crate) fn of_flows(packets: u64, now: Moment) -> Outlook
    ensures { result ≡ of_flows now packets }
{
    if packets == 0 {
        return Outlook::NO_PACKET;
    }
    Outlook::at_best(Some(now), 0)
}

impl Node {
    /// Returns the change of an fq_codel to these options, of which the number of flows has to stay.
    ///
    /// # Errors
    ///
    /// Returns `Refusal::CannotChange` if the node is no fq_codel, or if another number of flows is given.
    pub(crate) fn options(&self, options: &FqCodelOptions) -> Result<DisciplineChange, Refusal>
        ensures { result ≡ fq_codel_answer options.now self.now.own.discipline }
    {
        let Discipline::FqCodel(queue) = &self.discipline else {
            return Err(Refusal::CannotChange);
        };
        let flows = queue.settings().flows;
        if options.flows.is_some_and(|given| given != flows) {
            return Err(Refusal::CannotChange);
        }
        Ok(DisciplineChange::SetOptions(*options))
    }
}

impl Discipline {
    /// Gives an fq_codel other options, but for the number of flows (tc-fq_codel(8)).
    pub(crate) fn set_options(&mut self, options: &FqCodelOptions)
        ensures { IsChangedBy (SetOptions options.now) self.old self.new }
    {
        if let Discipline::FqCodel(queue) = self {
            let old = queue.settings();
            let new = with_options(options, old);
            queue.change(Settings {
                flows: old.flows,
                ..new
            });
        }
    }
}
