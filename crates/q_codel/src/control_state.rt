//! CoDel (RFC 8289), as one take goes through it:
//!
//! - A packet's sojourn time is the time since it was queued. Once it has been at or above the target for an interval, with more than a
//!   packet's worth of bytes behind it, CoDel begins to drop, or marks where the packet's transport takes part in ECN.
//! - While it goes on, the next drop is due after the interval over the square root of how many there were, so that drops come faster
//!   the longer the queue stays.
//! - The first sojourn time below the target ends it. If it begins again soon, the count goes on from near where it was.
ghost use Rattle.std.specs.Prelude.{◌≡◌, ◌≤◌, ◌<◌, ◌+◌, ◌^◌, ◌↔◌, ◌∷◌, List, Some, true, false, drop, take, option_map, slice_get, IsSome, IfSome, IfNone};
ghost use Rattle.std.specs.Option.{option_map_or};
ghost use Rattle.q_packet.specs.Totals.{count, size};
ghost use Rattle.q_packet.specs.declared.stamped.Stamped.{Stamped};
ghost use Rattle.q_codel.specs.Front.{front_of, IsFront};
ghost use Rattle.q_codel.specs.declared.codel.Taken.{Taken};
ghost use Rattle.q_codel.specs.Losses.{AreLost};
ghost use Rattle.q_codel.specs.Codel.{leaving};

use crate::control_law::gap;
use crate::front::Front;
use crate::parameters::Parameters;
use crate::queue::Queue;
use crate::sink::Sink;
use q_packet::{Cause, Ecn, KeptPacket, Moment};
use std::marker::Model;

/// The state of CoDel on one queue, without its settings: 32 bytes, so that many queues may each have one.
///
/// A contract sees it as the record `CodelVars`, and puts it together with the settings by `joined`. It holds no packet:
/// [`ControlState::take_into`] is lent the queue and the settings. The settings may differ from call to call.
#[derive(Clone, Copy, PartialEq, Eq, Debug)]
pub struct ControlState {
    pub(crate) first_above_time: u64,
    pub(crate) drop_next: u64,
    pub(crate) count: u32,
    pub(crate) lastcount: u32,
    pub(crate) dropping: bool,
}

const _: () = prove!(size_of::<ControlState>() <= 32);

impl Model for ControlState {
    ghost use Rattle.q_codel.specs.Codel.{CodelVars, IsCodelVars};

    ghost Value = { CodelVars };

    ghost view = { λ c. record {
      first_above_time = c.first_above_time;
      drop_next = c.drop_next;
      count = c.count;
      lastcount = c.lastcount;
      dropping = c.dropping;
    } };

    ghost invariant = { λ c. IsCodelVars (record {
      first_above_time = c.first_above_time;
      drop_next = c.drop_next;
      count = c.count;
      lastcount = c.lastcount;
      dropping = c.dropping;
    }) };

    ghost inverse = { λ c. record {
      first_above_time = c.first_above_time;
      drop_next = c.drop_next;
      count = c.count;
      lastcount = c.lastcount;
      dropping = c.dropping;
    } };
}

/// How a packet left a queue that CoDel takes from.
#[derive(Clone, Copy, PartialEq, Eq, Debug)]
pub struct Leaving {
    /// Whether it was marked on its way out: it has the codepoint `Ce` then.
    pub marked: bool,
    /// When it was queued.
    pub at: Moment,
}

impl ControlState {
    ghost use Rattle.q_codel.specs.Chosen.{HasChosen};
    ghost use Rattle.q_codel.specs.Codel.{joined, vars_at_first, sent, taken, drops, left, after, begun, above_after, is_late, Chooses};

    /// The state of a queue that has not sent yet.
    pub fn new() -> ControlState
        ensures { result ≡ vars_at_first }
    {
        ControlState {
            first_above_time: 0,
            drop_next: 0,
            count: 0,
            lastcount: 0,
            dropping: false,
        }
    }

    /// What a take from an empty queue leaves: `first_above_time` is unset, and CoDel is not in the dropping state.
    pub fn rest(&mut self)
        ensures { self.new ≡ record self.old { first_above_time = 0; dropping = false } }
    {
        self.first_above_time = 0;
        self.dropping = false;
    }

    /// The time of the next drop or mark while dropping, in nanoseconds; else the one of the last run of dropping.
    pub fn drop_next(&self) -> u64
        ensures { result ≡ self.now.drop_next }
    {
        self.drop_next
    }

    /// The count by whose root the gaps shorten: the drops and marks since dropping began, of this time or the last, with
    /// what was resumed of the time before. It stays at 2^32 - 1 once there.
    pub fn count(&self) -> u32
        ensures { result ≡ self.now.count }
    {
        self.count
    }

    /// Whether it is dropping.
    pub fn is_dropping(&self) -> bool
        ensures { result ≡ self.now.dropping }
    {
        self.dropping
    }

    /// Takes the next packet to send into `out`, at the time `now`, and hands those that are dropped before it to `sink`, with
    /// the cause `CoDel`. Returns whether the packet was marked; `None` exactly if the queue is empty, and `out` stays
    /// then. The packet is copied once, and nothing is allocated.
    ///
    /// `sink` needs room for as many packets as the queue holds. A packet that is stamped later than `now` counts as one
    /// that came just now. A mark sets the packet's codepoint to `Ce` and does to the state what a drop does (RFC 8289,
    /// section 5.5; RFC 3168, section 5); that it also ends the call is this project's choice.
    pub fn take_into<Q: Queue, S: Sink>(
        &mut self,
        parameters: &Parameters,
        queue: &mut Q,
        now: Moment,
        sink: &mut S,
        out: &mut KeptPacket,
    ) -> Option<bool>
        requires { count (Q.packets queue.old) ≤ (S.state sink.old).room }
        ensures marked { result ≡ option_map (λ (t : Taken). t.marked) (taken (joined parameters.now self.old) now (Q.packets queue.old)) }
        ensures packet { out.new ≡ option_map_or (λ (t : Taken). t.packet) (taken (joined parameters.now self.old) now (Q.packets queue.old)) out.old }
        ensures some { IsSome result ↔ (0 < count (Q.packets queue.old)) }
        ensures left { Q.packets queue.new ≡ left (joined parameters.now self.old) now (Q.packets queue.old) }
        ensures state { joined parameters.now self.new
            ≡ after (joined parameters.now self.old) now (Q.packets queue.old) }
        ensures lost { let all = Q.packets queue.old in
            AreLost Cause.CoDel (take (drops (joined parameters.now self.old) now all) all) (S.state sink.old) (S.state sink.new) }
        ensures kept { Q.keeps queue.old queue.new }
        ensures sink_kept { S.keeps sink.old sink.new }
    {
        let Some(front) = queue.front() else {
            self.first_above_time = 0;
            self.dropping = false;
            return None;
        };
        let marked = self.choose(parameters, front, queue, now, sink);
        give_head(queue, marked, out);
        Some(marked)
    }

    /// Does what [`ControlState::take_into`] does, where [`ControlState::passed`] found the head late, which is not judged again:
    /// `front` is what CoDel reads of it. Returns whether the packet was marked, and when it was queued.
    #[inline(always)]
    pub fn take_late_into<Q: Queue, S: Sink>(
        &mut self,
        parameters: &Parameters,
        front: Front,
        queue: &mut Q,
        now: Moment,
        sink: &mut S,
        out: &mut KeptPacket,
    ) -> Leaving
        requires front { IsFront front (Q.packets queue.old) }
        requires late { is_late (joined parameters.now self.old) now (Q.packets queue.old) ≡ true }
        requires room { count (Q.packets queue.old) ≤ (S.state sink.old).room }
        ensures taken { Some (record { packet = out.new; marked = result.marked }) ≡ taken (joined parameters.now self.old) now (Q.packets queue.old) }
        ensures at { Some result.at ≡ option_map (λ (s : Stamped). s.at) (sent (joined parameters.now self.old) now (Q.packets queue.old)) }
        ensures left { Q.packets queue.new ≡ left (joined parameters.now self.old) now (Q.packets queue.old) }
        ensures state { joined parameters.now self.new
            ≡ after (joined parameters.now self.old) now (Q.packets queue.old) }
        ensures lost { let all = Q.packets queue.old in
            AreLost Cause.CoDel (take (drops (joined parameters.now self.old) now all) all) (S.state sink.old) (S.state sink.new) }
        ensures kept { Q.keeps queue.old queue.new }
        ensures sink_kept { S.keeps sink.old sink.new }
    {
        let marked = self.drop_or_mark(parameters, front, queue, now, sink);
        let at = head_at(queue);
        give_head(queue, marked, out);
        Leaving { marked, at }
    }

    /// The state once the head is sent as it is (RFC 8289, section 5.6); `None` if the head is late, so that
    /// [`ControlState::take_late_into`] has to drop or mark it.
    ///
    /// `front` is what CoDel reads of the head, and `behind` the bytes of all packets behind it.
    pub fn passed(
        &self,
        parameters: &Parameters,
        front: &Front,
        behind: u64,
        now: Moment,
    ) -> Option<ControlState>
        ensures passed { IfSome result (λ after. (head : Stamped) (rest : List Stamped) → front.now ≡ front_of head → behind ≡ size rest
            → Chooses (joined parameters.now self.now) now (head ∷ rest) head false rest (joined parameters.now after)) }
        ensures late { IfNone result ((head : Stamped) (rest : List Stamped) → front.now ≡ front_of head → behind ≡ size rest
            → is_late (joined parameters.now self.now) now (head ∷ rest) ≡ true) }
        ensures kept { IfSome result (λ after. after ≡ record self.now { first_above_time = after.first_above_time; dropping = false }) }
    {
        let mut after = *self;
        if after.should_drop(parameters, front, behind, now) {
            return None;
        }
        after.dropping = false;
        Some(after)
    }

    /// Becomes what [`ControlState::passed`] returned: a head that is sent as it is changes neither the counts nor the time of the
    /// next drop, so that they are not written.
    #[inline(always)]
    pub fn pass(&mut self, after: ControlState)
        requires { after ≡ record self.old { first_above_time = after.first_above_time; dropping = false } }
        ensures { self.new ≡ after }
    {
        self.first_above_time = after.first_above_time;
        self.dropping = after.dropping;
    }

    // Drops heads as the law says, until the one to be sent is in front, and answers whether it is to be marked.
    #[inline(always)]
    fn choose<Q: Queue, S: Sink>(
        &mut self,
        parameters: &Parameters,
        front: Front,
        queue: &mut Q,
        now: Moment,
        sink: &mut S,
    ) -> bool
        requires front { IsFront front (Q.packets queue.old) }
        requires room { count (Q.packets queue.old) ≤ (S.state sink.old).room }
        ensures { HasChosen (joined parameters.now self.old) now (Q.packets queue.old) result (Q.packets queue.new) (joined parameters.now self.new)
            (S.state sink.old) (S.state sink.new) (Q.keeps queue.old queue.new) (S.keeps sink.old sink.new) }
    {
        let behind = queue.bytes() - front.len as u64;
        if !self.should_drop(parameters, &front, behind, now) {
            // The standing queue has drained, or has not stood for an interval: if dropping went on, it ends.
            self.dropping = false;
            return false;
        }
        self.choose_late(parameters, front, queue, now, sink)
    }

    // The same where the head is late: a function of its own, so that the common path saves no registers for it.
    #[cold]
    #[inline(never)]
    fn choose_late<Q: Queue, S: Sink>(
        &mut self,
        parameters: &Parameters,
        front: Front,
        queue: &mut Q,
        now: Moment,
        sink: &mut S,
    ) -> bool
        requires front { IsFront front (Q.packets queue.old) }
        requires room { count (Q.packets queue.old) ≤ (S.state sink.old).room }
        requires late { is_late (joined parameters.now self.old) now (Q.packets queue.old) ≡ true }
        ensures { HasChosen (joined parameters.now self.old) now (Q.packets queue.old) result (Q.packets queue.new) (joined parameters.now self.new)
            (S.state sink.old) (S.state sink.new) (Q.keeps queue.old queue.new) (S.keeps sink.old sink.new) }
    {
        self.drop_or_mark(parameters, front, queue, now, sink)
    }

    // The same with no call of its own, for a caller that is itself off the common path.
    #[inline(always)]
    fn drop_or_mark<Q: Queue, S: Sink>(
        &mut self,
        parameters: &Parameters,
        front: Front,
        queue: &mut Q,
        now: Moment,
        sink: &mut S,
    ) -> bool
        requires front { IsFront front (Q.packets queue.old) }
        requires room { count (Q.packets queue.old) ≤ (S.state sink.old).room }
        requires late { is_late (joined parameters.now self.old) now (Q.packets queue.old) ≡ true }
        ensures { HasChosen (joined parameters.now self.old) now (Q.packets queue.old) result (Q.packets queue.new) (joined parameters.now self.new)
            (S.state sink.old) (S.state sink.new) (Q.keeps queue.old queue.new) (S.keeps sink.old sink.new) }
    {
        if self.dropping {
            return self.go_on(parameters, front, queue, now, sink);
        }
        self.begin(parameters, now);
        if parameters.marks(front.ecn) {
            // By this project's choice a mark ends the call: its packet is the one that is sent.
            return true;
        }
        let next = drop_head(queue, sink);
        // A second test, of the head that is sent in place of the dropped one. Late or not, it goes, since `drop_next`
        // is a gap away; but the time above the target goes by the head that leaves, and may end with it.
        let behind = queue.bytes() - next.len as u64;
        let _is_late = self.should_drop(parameters, &next, behind, now);
        false
    }

    // While dropping, with a late head: drops heads, or marks one, each at its time, until one is to be sent.
    #[inline(always)]
    fn go_on<Q: Queue, S: Sink>(
        &mut self,
        parameters: &Parameters,
        first: Front,
        queue: &mut Q,
        now: Moment,
        sink: &mut S,
    ) -> bool
        requires front { IsFront first (Q.packets queue.old) }
        requires room { count (Q.packets queue.old) ≤ (S.state sink.old).room }
        requires counted { self.old.count < 2 ^ 32 }
        requires dropping { self.old.dropping ≡ true }
        requires late { is_late (joined parameters.now self.old) now (Q.packets queue.old) ≡ true }
        ensures { HasChosen (joined parameters.now self.old) now (Q.packets queue.old) result (Q.packets queue.new) (joined parameters.now self.new)
            (S.state sink.old) (S.state sink.new) (Q.keeps queue.old queue.new) (S.keeps sink.old sink.new) }
    {
        let mut front = first;
        // Each time is computed from the one before and not from now. So one call drops what several would have dropped,
        // where none came for a while.
        while self.drop_next <= now.ns() {
            // By this project's choice the count stays at its ceiling, once there.
            self.count = self.count.saturating_add(1);
            if parameters.marks(front.ecn) {
                // By this project's choice a mark ends the call, also where `drop_next` has come.
                self.drop_next += gap(parameters.interval, self.count);
                return true;
            }
            front = drop_head(queue, sink);
            let behind = queue.bytes() - front.len as u64;
            if !self.should_drop(parameters, &front, behind, now) {
                // The drop has drained the queue. `drop_next` is not set, since dropping ends.
                self.dropping = false;
                return false;
            }
            // TCP's throughput goes by the root of how much is lost, so that the gaps shrink by the root of the count.
            self.drop_next += gap(parameters.interval, self.count);
        }
        false
    }

    // Dropping begins at the time `now`.
    fn begin(&mut self, parameters: &Parameters, now: Moment)
        ensures { joined parameters.now self.new ≡ begun (joined parameters.now self.old) now }
    {
        // Where dropping ended only lately, the rate that held the queue down then is a good one to begin with: the count
        // goes on from what it grew by in that time. After sixteen intervals that rate says nothing of today's flows.
        let delta = self.count - self.lastcount;
        let is_recent = now.ns() < self.drop_next + 16 * parameters.interval;
        let count = if delta > 1 && is_recent { delta } else { 1 };
        self.dropping = true;
        self.count = count;
        self.lastcount = count;
        self.drop_next = now.ns() + gap(parameters.interval, count);
    }

    // Whether a head is late that has so many bytes behind it. In the same step, so that each head is tested once, it notes
    // since when the queue has stood.
    fn should_drop(
        &mut self,
        parameters: &Parameters,
        front: &Front,
        behind: u64,
        now: Moment,
    ) -> bool
        ensures kept { self.new ≡ record self.old { first_above_time = self.new.first_above_time } }
        ensures late { (head : Stamped) (rest : List Stamped) → front.now ≡ front_of head → behind ≡ size rest
            → result ≡ is_late (joined parameters.now self.old) now (head ∷ rest) }
        ensures noted { (head : Stamped) (rest : List Stamped) → front.now ≡ front_of head → behind ≡ size rest
            → self.new ≡ record self.old { first_above_time = above_after (joined parameters.now self.old) now (head ∷ rest) } }
    {
        let sojourn = now.ns().saturating_sub(front.at.ns());
        if sojourn < parameters.target || behind <= parameters.mtu as u64 {
            // One head below the target shows that the queue drains within an interval. With an mtu or less behind the
            // head, a drop would leave the link idle.
            self.first_above_time = 0;
            return false;
        }
        if self.first_above_time == 0 {
            // The first head above the target: a queue that still stands an interval from now is no burst.
            self.first_above_time = now.ns() + parameters.interval;
            return false;
        }
        self.first_above_time <= now.ns()
    }
}

// When the head of a queue was queued that has one.
#[inline(always)]
fn head_at<Q: Queue>(queue: &Q) -> Moment
    requires { 0 < count (Q.packets queue.now) }
    ensures { Some result ≡ option_map (λ (s : Stamped). s.at) (slice_get (Q.packets queue.now) 0) }
{
    let Some(front) = queue.front() else {
        unreachable!()
    };
    front.at
}

// Takes the head of a queue that has one into `out`, with the codepoint `Ce` where it is marked.
#[inline(always)]
fn give_head<Q: Queue>(queue: &mut Q, marked: bool, out: &mut KeptPacket)
    requires some { 0 < count (Q.packets queue.old) }
    ensures given { Some out.new ≡ option_map (λ (s : Stamped). leaving marked s.packet) (slice_get (Q.packets queue.old) 0) }
    ensures rest { Q.packets queue.new ≡ drop 1 (Q.packets queue.old) }
    ensures kept { Q.keeps queue.old queue.new }
{
    queue.take_into(out);
    if marked {
        out.mark();
    }
}

// Drops the head of a queue that has a packet behind it, and answers what is in front then.
#[inline(always)]
fn drop_head<Q: Queue, S: Sink>(queue: &mut Q, sink: &mut S) -> Front
    requires some { 1 < count (Q.packets queue.old) }
    requires room { 1 ≤ (S.state sink.old).room }
    ensures front { IsFront result (Q.packets queue.new) }
    ensures rest { Q.packets queue.new ≡ drop 1 (Q.packets queue.old) }
    ensures lost { AreLost Cause.CoDel (take 1 (Q.packets queue.old)) (S.state sink.old) (S.state sink.new) }
    ensures kept { Q.keeps queue.old queue.new }
    ensures sink_kept { S.keeps sink.old sink.new }
{
    queue.lose(Cause::CoDel, sink);
    queue.front().unwrap()
}
