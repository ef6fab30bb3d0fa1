//! A departure: the root dequeues the packet whose turn it is, straight into the caller's place.
//!
//! It comes to the same as a [peek](crate::peek) at the root, after which the packet that was shown is popped, but a tbf, a drr or an fq_codel
//! at the root does not hold what it dequeues. The nodes below the root are asked by a peek alone: a discipline with children takes the packet
//! from the child that shows it. Each node books what CoDel dropped and marked below it, and then the packet as sent.
//!
//! `dequeue` asks, and may find that nothing can go now. `dequeue_at_hand` asks nobody: it takes what a node has already shown.
ghost use Rattle.std.specs.Prelude.{◌≡◌, ◌≤◌, List, None, Option, Some, is_some, length, true, unwrap_or, ℕ};
ghost use Rattle.std.specs.Option.{option_map_or};
ghost use Rattle.q_packet.specs.Stored.{stored_of};
ghost use Rattle.q_model.specs.Beneath.{beneath};
ghost use Rattle.q_model.specs.Pop.{pop};
ghost use Rattle.q_model.specs.TreeState.{given, noted_by_take, take_packet};
ghost use Rattle.q_model.specs.Work.{booked};
ghost use Rattle.q_model.specs.declared.filter.Filter.{Filter};
ghost use Rattle.q_tree.specs.departure.AskSteps.{CanAsk, CanAskIn, CanBegin, IsToldOf, answer_of, packets_within, signals_of};
ghost use Rattle.q_tree.specs.departure.PopSteps.{HasHead, IsPoppedIn, popping_of};
ghost use Rattle.q_tree.specs.departure.SendSteps.{HasSent, IsDequeued, IsSentIn};
ghost use Rattle.q_tree.specs.Kept.{kept};

use crate::counters::booking::{book_sent, book_shown};
use crate::departure::shown::Shown;
use crate::departure::signals::{NO_SIGNALS, Signals};
use crate::disciplines::drr::dequeue_class;
use crate::disciplines::fifo::dequeue_head;
use crate::disciplines::fq_codel::dequeue_flow;
use crate::disciplines::prio::{dequeue_bands, dequeue_first};
use crate::disciplines::tbf::dequeue_child;
use crate::node::{Discipline, Node};
use crate::tree::Tree;
use q_codel::Sink;
use q_packet::{KeptPacket, Moment, SOME_KEPT, StoredPacket};

impl Tree {
    /// Takes the packet whose turn it is into `out`, as [`Tree::take`] does. Returns whether there was one: where no packet may go now, it
    /// returns `false`, and `out` stays as it is. `now` is at or after the latest time that the tree was given.
    ///
    /// The packet is written once, to the caller's place. The call allocates nothing. What CoDel drops for it goes to `sink`, which
    /// needs room for what is queued.
    pub fn send<S: Sink>(&mut self, now: Moment, out: &mut KeptPacket, sink: &mut S) -> bool
        requires order { self.old.clock ≤ now }
        requires sink { length (beneath self.old.tree.root) ≤ (S.state sink.old).room }
        ensures sent { result ≡ is_some (given now self.old.tree) }
        ensures packet { out.new ≡ unwrap_or (given now self.old.tree) out.old }
        ensures after { self.new ≡ record { clock = now; tree = take_packet kept now self.old.tree } }
        ensures lost { IsToldOf (noted_by_take now self.old.tree) (S.state sink.old) (S.state sink.new) }
        ensures kept { S.keeps sink.old sink.new }
    {
        // A time is at most 2^62 nanoseconds.
        let _ = now.ns();
        self.top.fit();
        // A fifo at the root hands out its head with no answer from below.
        if self.root.has_head() {
            self.root.send_head(out);
            book_sent(&mut self.top, out);
            self.clock = now;
            return true;
        }
        self.send_asked(now, out, sink)
    }

    /// Takes the packet whose turn it is, as [`Tree::send`] does, into a place in which anything may be: the packet is written there in
    /// its stored form. Returns whether there was one; where there was none, the place stays as it is.
    #[inline(always)]
    pub fn send_stored<S: Sink>(
        &mut self,
        now: Moment,
        out: &mut StoredPacket,
        sink: &mut S,
    ) -> bool
        requires order { self.old.clock ≤ now }
        requires sink { length (beneath self.old.tree.root) ≤ (S.state sink.old).room }
        ensures sent { result ≡ is_some (given now self.old.tree) }
        ensures packet { out.new ≡ option_map_or stored_of (given now self.old.tree) out.old }
        ensures after { self.new ≡ record { clock = now; tree = take_packet kept now self.old.tree } }
        ensures lost { IsToldOf (noted_by_take now self.old.tree) (S.state sink.old) (S.state sink.new) }
        ensures kept { S.keeps sink.old sink.new }
    {
        // A time is at most 2^62 nanoseconds.
        let _ = now.ns();
        self.top.fit();
        if self.root.has_head() {
            let packet = self.root.send_head_stored(out);
            book_sent(&mut self.top, &packet);
            self.clock = now;
            return true;
        }
        let mut packet = SOME_KEPT;
        if !self.send_asked(now, &mut packet, sink) {
            return false;
        }
        packet.write(out);
        true
    }

    // Asks the root, whatever it is, and takes the packet that it shows then into `out`. Returns whether it showed one.
    #[inline(always)]
    fn send_asked<S: Sink>(&mut self, now: Moment, out: &mut KeptPacket, sink: &mut S) -> bool
        requires order { self.old.clock ≤ now }
        requires sink { length (beneath self.old.tree.root) ≤ (S.state sink.old).room }
        ensures sent { HasSent now self.old self.new result out.old out.new (S.state sink.old) (S.state sink.new) }
        ensures kept { S.keeps sink.old sink.new }
    {
        let _ = now.ns();
        self.top.fit();
        let mut signals = NO_SIGNALS;
        let shown = self.root.dequeue(now, out, &mut signals, sink);
        book_shown(&mut self.top, &shown, &signals);
        self.clock = now;
        if !shown.has_packet() {
            return false;
        }
        book_sent(&mut self.top, out);
        true
    }
}

impl Node {
    /// Returns whether the node is a fifo that has a packet and holds none, so that nobody has to be asked.
    #[inline(always)]
    pub(crate) fn has_head(&self) -> bool
        ensures means { result ≡ true → HasHead self.now }
        ensures comes { HasHead self.now → result ≡ true }
    {
        if self.held.is_some() {
            return false;
        }
        let Discipline::Fifo(fifo) = &self.discipline else {
            return false;
        };
        fifo.count() > 0
    }

    /// Dequeues the head of a fifo, which has a packet and holds none, into `out`, as [`Node::dequeue_at_hand`] does.
    #[inline(always)]
    pub(crate) fn send_head(&mut self, out: &mut KeptPacket)
        requires head { HasHead self.old }
        ensures packet { Some out.new ≡ (pop self.old).shown }
        ensures after { self.new ≡ booked kept self.old (pop self.old).after }
        ensures arrived { self.new.memory.counts.arrived ≡ self.old.memory.counts.arrived }
    {
        self.row.fit();
        let Discipline::Fifo(fifo) = &mut self.discipline else {
            unreachable!()
        };
        let _ = fifo.take_into(out);
        book_sent(&mut self.row, out);
    }

    /// Dequeues the head of a fifo, as [`Node::send_head`] does, into a place in which anything may be, and returns that packet.
    #[inline(always)]
    fn send_head_stored(&mut self, out: &mut StoredPacket) -> KeptPacket
        requires head { HasHead self.old }
        ensures given { Some result ≡ (pop self.old).shown }
        ensures packet { out.new ≡ stored_of result }
        ensures after { self.new ≡ booked kept self.old (pop self.old).after }
        ensures arrived { self.new.memory.counts.arrived ≡ self.old.memory.counts.arrived }
    {
        self.row.fit();
        let Discipline::Fifo(fifo) = &mut self.discipline else {
            unreachable!()
        };
        let Some(packet) = fifo.first() else {
            unreachable!()
        };
        let _ = fifo.take_stored(out);
        book_sent(&mut self.row, &packet);
        packet
    }

    // Asks the root for its packet, and dequeues that into `out`, which stays as it is where the root shows none. Returns what it shows.
    //
    // The call allocates nothing. `sink` needs room for what is queued.
    #[inline(always)]
    fn dequeue<S: Sink>(
        &mut self,
        now: Moment,
        out: &mut KeptPacket,
        signals: &mut Signals,
        sink: &mut S,
    ) -> Shown
        requires { CanBegin (CanAsk now self.old) (length (beneath self.old)) (S.state sink.old).room signals.old }
        ensures dequeued { IsDequeued now self.old self.new out.old out.new signals.new result (S.state sink.old) (S.state sink.new) }
        ensures kept { S.keeps sink.old sink.new }
    {
        self.row.fit();
        if self.held.is_some() {
            self.held.release(out);
            book_sent(&mut self.row, out);
            return Shown::sending(out, &NO_SIGNALS);
        }
        let shown = self.discipline.dequeue(now, out, signals, sink);
        book_shown(&mut self.row, &shown, signals);
        if !shown.has_packet() {
            return shown;
        }
        book_sent(&mut self.row, out);
        shown
    }

    /// Dequeues the packet that the node has at hand into `out`, and counts it as sent here, and in the bands that it comes from. Returns
    /// whether there was one; where there was none, nothing changes. No node is asked: after a peek it is the packet that was shown.
    #[cycle(dequeue_at_hand)]
    #[inline(always)]
    pub(crate) fn dequeue_at_hand(&mut self, out: &mut KeptPacket) -> bool
        ensures given { result ≡ is_some (pop self.old).shown }
        ensures packet { out.new ≡ unwrap_or (pop self.old).shown out.old }
        ensures after { self.new ≡ booked kept self.old (pop self.old).after }
        ensures arrived { self.new.memory.counts.arrived ≡ self.old.memory.counts.arrived }
    {
        self.row.fit();
        if self.held.is_some() {
            self.held.release(out);
            book_sent(&mut self.row, out);
            return true;
        }
        if !self.discipline.dequeue_at_hand(out) {
            return false;
        }
        book_sent(&mut self.row, out);
        true
    }
}

impl Discipline {
    // Returns what a node shows that has this discipline and holds no packet, and dequeues the packet that it shows into `out`.
    #[inline(always)]
    fn dequeue<S: Sink>(
        &mut self,
        now: Moment,
        out: &mut KeptPacket,
        signals: &mut Signals,
        sink: &mut S,
    ) -> Shown
        requires { CanBegin (CanAskIn now self.old) (length (packets_within self.old)) (S.state sink.old).room signals.old }
        ensures after { (handle : Option ℕ) (filters : List Filter) → IsSentIn (answer_of now handle filters self.old) self.old self.new result (S.state sink.old) (S.state sink.new) }
        ensures packet { out.new ≡ unwrap_or result.packet out.old }
        ensures signals { signals.new ≡ signals_of result }
        ensures kept { S.keeps sink.old sink.new }
    {
        match self {
            Discipline::Fifo(fifo) => return dequeue_head(fifo, out),
            Discipline::Prio { bands, .. } => return dequeue_bands(bands, now, out, signals, sink),
            Discipline::Tbf { bucket, child, .. } => {
                return dequeue_child(bucket, child, out, now, signals, sink);
            }
            Discipline::Drr { active, classes } => {
                return dequeue_class(active, classes, out, now, signals, sink);
            }
            Discipline::FqCodel(queue) => return dequeue_flow(queue, out, now, signals, sink),
        }
    }

    // Dequeues a fifo's head, or the packet of a prio's first band that has one, into `out`. Returns whether there was one.
    #[cycle(dequeue_at_hand)]
    #[inline(always)]
    fn dequeue_at_hand(&mut self, out: &mut KeptPacket) -> bool
        ensures given { result ≡ is_some (popping_of self.old).shown }
        ensures packet { out.new ≡ unwrap_or (popping_of self.old).shown out.old }
        ensures after { IsPoppedIn self.old self.new }
    {
        // A fifo is met with no call, as where a packet arrives.
        match self {
            Discipline::Fifo(fifo) => return dequeue_head(fifo, out).has_packet(),
            _ => return self.dequeue_at_hand_further(out),
        }
    }

    // Does the same by a call.
    #[cycle(dequeue_at_hand)]
    #[inline(never)]
    fn dequeue_at_hand_further(&mut self, out: &mut KeptPacket) -> bool
        ensures given { result ≡ is_some (popping_of self.old).shown }
        ensures packet { out.new ≡ unwrap_or (popping_of self.old).shown out.old }
        ensures after { IsPoppedIn self.old self.new }
    {
        match self {
            Discipline::Fifo(fifo) => return dequeue_head(fifo, out).has_packet(),
            Discipline::Prio { bands, .. } => return dequeue_first(bands, out),
            Discipline::Tbf { .. } => return false,
            Discipline::Drr { .. } => return false,
            Discipline::FqCodel(_) => return false,
        }
    }
}
