//! tbf: how one is made, refuses, dequeues, shows its packet, is ready, and changes (tc-tbf(8)).
ghost use Rattle.std.specs.Prelude.{◌≡◌, ◌≤◌, [], ◌∷◌, IfOk, None, Some, length, nat_lt, unwrap_or, ℕ, if◌then◌else◌};
ghost use Rattle.q_invariants.specs.Kept.{IsLawfulRoot};
ghost use Rattle.q_model.specs.Ask.{ask_tbf};
ghost use Rattle.q_model.specs.Beneath.{beneath};
ghost use Rattle.q_model.specs.Make.{limit_bytes};
ghost use Rattle.q_model.specs.Node.{Own, Tbf, shape};
ghost use Rattle.q_tree.specs.commands.Changing.{tbf_answer};
ghost use Rattle.q_tree.specs.departure.AskSteps.{AreAsked, CanAsk, CanBegin, IsToldOf, answers, signals_of};
ghost use Rattle.q_tree.specs.departure.Holding.{held_with};
ghost use Rattle.q_packet.specs.Descriptor.{Descriptor};
ghost use Rattle.q_packet.specs.declared.cause.Cause.TheVariants.{TooLong};
ghost use Rattle.q_tree.specs.answers.ReadyAt.{covers_at, shaped, shaped_after};
ghost use Rattle.q_tree.specs.commands.DisciplineChanges.{IsChangedBy, leaf_limited};
ghost use Rattle.q_tree.specs.commands.Making.{IsNewTbf};
ghost use Rattle.q_tree.specs.disciplines.Meeting.{IsAllowed, IsWaiting};
ghost use Rattle.q_tree.specs.declared.route.choice.Choice.TheVariants.{Child, Refused};
ghost use Rattle.q_tree.specs.declared.commands.discipline_change.DisciplineChange.TheVariants.{SetBucket};

use crate::answers::ready_at::{Outlook, is_before, later};
use crate::commands::discipline_change::DisciplineChange;
use crate::commands::planner::Planner;
use crate::departure::held::Held;
use crate::departure::shown::Shown;
use crate::departure::signals::Signals;
use crate::node::{Discipline, Node};
use crate::route::choice::Choice;
use q_bucket::Bucket;
use q_codel::{Limit, Sink};
use q_model::{Burst, Rate, Refusal, TbfLimit};
use q_packet::{Cause, KeptPacket, Moment};
use std::alloc::{AllocError, Global};

/// Makes a tbf with this bucket, over an implicit bfifo whose limit is `limit` bytes.
///
/// # Errors
///
/// Returns `AllocError` if an allocation fails.
pub(crate) fn new_tbf(alloc: Global, bucket: Bucket, limit: u64) -> Result<Discipline, AllocError>
    ensures { IfOk result (λ d. IsNewTbf d bucket limit) }
{
    let leaf = Node::fifo(alloc, None, Limit::Bytes(limit));
    let child = Box::new(alloc, leaf)?;
    Ok(Discipline::Tbf {
        bucket,
        limit,
        child,
    })
}

// Returns how many bytes the implicit bfifo of a tbf holds: as given, or what the rate brings in the latency, and the burst (tc-tbf(8)).
pub(crate) fn limit_bytes(rate: Rate, burst: Burst, limit: TbfLimit) -> u64
    ensures { result ≡ limit_bytes rate burst limit }
{
    match limit {
        TbfLimit::Bytes(bytes) => u64::from(bytes),
        TbfLimit::Latency(latency) => {
            let brought = u128::from(rate.bits()) * u128::from(latency.nanoseconds())
                / UNITS_IN_BYTE;
            brought as u64 + u64::from(burst.bytes())
        }
    }
}

/// The number of units of a bucket's level in a byte: a nanosecond brings as many units as the rate has bits a second.
const UNITS_IN_BYTE: u128 = 8_000_000_000;

/// Returns where a packet goes: to the child. It is refused where it is longer than the burst, since the bucket never allows it.
#[inline(always)]
pub(crate) fn choose(bucket: &Bucket, packet: &KeptPacket) -> Choice
    ensures { result ≡ (if nat_lt bucket.now.burst packet.now.len then Refused TooLong else Child 0) }
{
    if u32::from(packet.stored.len) > bucket.burst() {
        return Choice::Refused(Cause::TooLong);
    }
    Choice::Child(0)
}

/// Asks the child of a tbf, and dequeues the packet that it shows into `out` where the bucket allows it (tc-tbf(8)). Returns what the tbf
/// shows.
pub(crate) fn dequeue_child<S: Sink>(
    bucket: &mut Bucket,
    child: &mut Node,
    out: &mut KeptPacket,
    now: Moment,
    signals: &mut Signals,
    sink: &mut S,
) -> Shown
    requires asks { CanBegin (CanAsk now child.old) (length (beneath child.old)) (S.state sink.old).room signals.old }
    requires order { bucket.old.last ≤ now }
    ensures bucket { (own : Own) (limit : ℕ) → own.discipline ≡ Tbf bucket.old limit → Tbf bucket.new limit ≡ (ask_tbf now own (answers now (child.old ∷ [])) bucket.old limit).peeked.own.discipline }
    ensures after { (own : Own) (limit : ℕ) → AreAsked (ask_tbf now own (answers now (child.old ∷ [])) bucket.old limit) (child.old ∷ []) (child.new ∷ []) result (S.state sink.old) (S.state sink.new) }
    ensures packet { out.new ≡ unwrap_or result.packet out.old }
    ensures signals { signals.new ≡ signals_of result }
    ensures kept { S.keeps sink.old sink.new }
{
    let shown = allow_child(bucket, child, now, signals, sink);
    if shown.has_packet() {
        // What is handed out is what was shown.
        child.dequeue_at_hand(out);
    }
    shown
}

// Asks the child as `dequeue_child` does, and spends the tokens, up to where the packet is handed out: the child still has it at hand.
#[cycle(peek)]
#[inline(always)]
fn allow_child<S: Sink>(
    bucket: &mut Bucket,
    child: &mut Node,
    now: Moment,
    signals: &mut Signals,
    sink: &mut S,
) -> Shown
    requires asks { CanBegin (CanAsk now child.old) (length (beneath child.old)) (S.state sink.old).room signals.old }
    requires order { bucket.old.last ≤ now }
    ensures bucket { (own : Own) (limit : ℕ) → own.discipline ≡ Tbf bucket.old limit → Tbf bucket.new limit ≡ (ask_tbf now own (answers now (child.old ∷ [])) bucket.old limit).peeked.own.discipline }
    ensures allowed { (p : Descriptor) → result.packet ≡ Some p → IsAllowed now p bucket.old child.old child.new result (S.state sink.old) (S.state sink.new) }
    ensures waits { result.packet ≡ None → (own : Own) (limit : ℕ) → IsWaiting now own limit bucket.old child.old child.new result (S.state sink.old) (S.state sink.new) }
    ensures told { (own : Own) (limit : ℕ) → IsToldOf (ask_tbf now own (answers now (child.old ∷ [])) bucket.old limit).rises (S.state sink.old) (S.state sink.new) }
    ensures signals { signals.new ≡ signals_of result }
    ensures kept { S.keeps sink.old sink.new }
{
    let shown = child.peek(now, signals, sink);
    let Some(len) = shown.packet_len() else {
        return shown;
    };
    if !bucket.spend(now, len) {
        return shown.showing(&None);
    }
    shown
}

/// Dequeues the packet that a tbf sends, as [`dequeue_child`] does, and holds it in `held` (tc-tbf(8)). Returns what the tbf shows.
#[cycle(peek)]
#[inline(never)]
pub(crate) fn peek_child<S: Sink>(
    bucket: &mut Bucket,
    child: &mut Node,
    held: &mut Held,
    now: Moment,
    signals: &mut Signals,
    sink: &mut S,
) -> Shown
    requires asks { CanBegin (CanAsk now child.old) (length (beneath child.old)) (S.state sink.old).room signals.old }
    requires order { bucket.old.last ≤ now }
    requires none { held.old ≡ None }
    ensures bucket { (own : Own) (limit : ℕ) → own.discipline ≡ Tbf bucket.old limit → Tbf bucket.new limit ≡ (ask_tbf now own (answers now (child.old ∷ [])) bucket.old limit).peeked.own.discipline }
    ensures after { (own : Own) (limit : ℕ) → AreAsked (ask_tbf now own (answers now (child.old ∷ [])) bucket.old limit) (child.old ∷ []) (child.new ∷ []) result (S.state sink.old) (S.state sink.new) }
    ensures held { (own : Own) (limit : ℕ) → held.new ≡ held_with result.packet (ask_tbf now own (answers now (child.old ∷ [])) bucket.old limit).peeked.own.since }
    ensures signals { signals.new ≡ signals_of result }
    ensures kept { S.keeps sink.old sink.new }
{
    let shown = allow_child(bucket, child, now, signals, sink);
    if shown.has_packet() {
        held.hold(child);
    }
    shown
}

impl Outlook {
    /// Returns what is known of a tbf with this bucket, of whose child this is known (tc-tbf(8)).
    pub(crate) fn shaped(&self, bucket: &Bucket) -> Outlook
        ensures { result ≡ shaped bucket.now self.now }
    {
        let Some(len) = self.len else {
            return self.shaped_after(bucket, self.at);
        };
        let at = later(self.at, covers_at(bucket, len));
        let known = at;
        if is_before(at, self.until) {
            return Outlook {
                at: known,
                least: self.least,
                len: self.len,
                until: self.until,
            };
        }
        self.shaped_after(bucket, self.until)
    }

    // Returns what is known of it from this time on, where no more is known of the child than how short its packets are.
    fn shaped_after(&self, bucket: &Bucket, from: Option<Moment>) -> Outlook
        ensures { result ≡ shaped_after bucket.now self.now from }
    {
        let at = later(from, covers_at(bucket, self.least));
        Outlook::at_best(at, self.least)
    }
}

// Returns the least time, from its last spend on, at which the bucket covers a packet of `len` bytes; `None` where it never does.
fn covers_at(bucket: &Bucket, len: u16) -> Option<Moment>
    ensures { result ≡ covers_at bucket.now len }
{
    // A bucket is in range, and a time is at most 2^62 nanoseconds.
    let _ = bucket.rate();
    let at = bucket.ready_at(len)?;
    let _ = at.ns();
    Some(at)
}

impl Planner<'_> {
    /// Returns the change of a tbf to this rate, burst and limit. Its bucket fills up to now, before it is another.
    ///
    /// # Errors
    ///
    /// Returns `Refusal::CannotChange` if the node is no tbf, and `Refusal::SmallBurst` if the burst is below both the mtu and the old burst.
    pub(crate) fn bucket(
        &self,
        node: &Node,
        rate: Rate,
        burst: Burst,
        limit: TbfLimit,
    ) -> Result<DisciplineChange, Refusal>
        requires lawful { IsLawfulRoot self.now.mtu self.now.moment (shape node.now) }
        ensures { result ≡ tbf_answer self.now.mtu self.now.moment rate burst limit node.now.own.discipline }
    {
        let Discipline::Tbf { bucket, .. } = &node.discipline else {
            return Err(Refusal::CannotChange);
        };
        if burst.bytes() < bucket.burst().min(u32::from(self.mtu)) {
            return Err(Refusal::SmallBurst);
        }
        let bucket = bucket.changed(rate.bits(), burst.bytes(), self.moment);
        let bytes = limit_bytes(rate, burst, limit);
        Ok(DisciplineChange::SetBucket(bucket, bytes))
    }
}

impl Node {
    // Gives an implicit bfifo this limit in bytes. A qdisc with a handle keeps its own limit.
    fn limit_leaf(&mut self, bytes: u64)
        ensures { self.new ≡ leaf_limited bytes self.old }
    {
        if self.handle.is_none() {
            self.discipline.set_limit(Limit::Bytes(bytes));
        }
    }
}

impl Discipline {
    /// Gives a tbf another bucket and limit, which its implicit leaf has too (tc-tbf(8)).
    pub(crate) fn set_bucket(&mut self, new: Bucket, bytes: u64)
        ensures { IsChangedBy (SetBucket new bytes) self.old self.new }
    {
        if let Discipline::Tbf {
            bucket,
            limit,
            child,
        } = self
        {
            *bucket = new;
            *limit = bytes;
            child.limit_leaf(bytes);
        }
    }
}
