//! A peek: which packet a node would send now.
//!
//! A fifo shows its head and a prio what its first ready band shows, and both leave it where it is. A tbf, a drr and an fq_codel have to
//! dequeue a packet in order to show one, since a bucket pays for it, a deficit is spent on it, or CoDel decides on it. They hold it until
//! it is taken, and show it again whenever they are asked. What CoDel drops or marks on the way is booked at each node, with the packet or
//! without one.
ghost use Rattle.std.specs.Prelude.{◌≡◌, List, None, Option, length, true, ℕ};
ghost use Rattle.q_model.specs.Beneath.{beneath};
ghost use Rattle.q_model.specs.Pop.{pop};
ghost use Rattle.q_model.specs.Since.{at_hand_since};
ghost use Rattle.q_model.specs.declared.filter.Filter.{Filter};
ghost use Rattle.q_tree.specs.departure.AskSteps.{CanAsk, CanAskIn, CanAskOnce, CanBegin, IsAskedIn, IsAskedOnce, IsPeeked, answer_of, held_in, packets_within, signals_of};
ghost use Rattle.q_tree.specs.departure.Holding.{held_with};
ghost use Rattle.q_tree.specs.disciplines.EmptyFifo.{IsEmptyFifo};
ghost use Rattle.q_tree.specs.Seen.{discipline_seen};

use crate::counters::booking::book_shown;
use crate::departure::held::Held;
use crate::departure::shown::Shown;
use crate::departure::signals::{NO_SIGNALS, Signals};
use crate::disciplines::drr::peek_classes;
use crate::disciplines::fifo::{first_arrival, first_packet};
use crate::disciplines::fq_codel::peek_flow;
use crate::disciplines::prio::{first_at_hand, first_since, peek_bands, peek_bands_again};
use crate::disciplines::tbf::peek_child;
use crate::node::{Discipline, Node};
use q_codel::Sink;
use q_packet::{KeptPacket, Moment};

impl Node {
    /// Asks the node for its packet, which is at hand then, and books what CoDel dropped and marked for it, here and below. Returns what
    /// the node shows.
    ///
    /// A tbf, a drr and an fq_codel dequeue the packet that they show, and hold it until it is popped. One that holds a packet
    /// shows that one, and no node below it is asked. The call allocates nothing. `sink` needs room for what is queued.
    #[cycle(peek)]
    #[inline(always)]
    pub(crate) fn peek<S: Sink>(
        &mut self,
        now: Moment,
        signals: &mut Signals,
        sink: &mut S,
    ) -> Shown
        requires { CanBegin (CanAsk now self.old) (length (beneath self.old)) (S.state sink.old).room signals.old }
        ensures peeked { IsPeeked now self.old self.new signals.new result (S.state sink.old) (S.state sink.new) }
        ensures kept { S.keeps sink.old sink.new }
    {
        self.row.fit();
        if self.held.is_some() {
            return Shown::at_hand(&self.held.packet());
        }
        // A fifo is met with no call, and nothing is dropped or marked there.
        if let Discipline::Fifo(fifo) = &self.discipline {
            return Shown::at_hand(&first_packet(fifo));
        }
        self.peek_further(now, signals, sink)
    }

    /// Returns whether the node is a fifo that has no packet, and holds none: asking it comes to nothing, and leaves it as it is.
    #[inline(always)]
    pub(crate) fn is_an_empty_fifo(&self) -> bool
        ensures means { result ≡ true → IsEmptyFifo self.now }
        ensures comes { IsEmptyFifo self.now → result ≡ true }
    {
        if !self.is_empty() {
            return false;
        }
        let Discipline::Fifo(_) = &self.discipline else {
            return false;
        };
        true
    }

    // Asks a node of any discipline, which holds no packet, and books the answer.
    #[cycle(peek)]
    #[inline(always)]
    fn peek_further<S: Sink>(&mut self, now: Moment, signals: &mut Signals, sink: &mut S) -> Shown
        requires none { self.old.own.held ≡ None }
        requires asks { CanBegin (CanAsk now self.old) (length (beneath self.old)) (S.state sink.old).room signals.old }
        ensures peeked { IsPeeked now self.old self.new signals.new result (S.state sink.old) (S.state sink.new) }
        ensures kept { S.keeps sink.old sink.new }
    {
        self.row.fit();
        let shown = self.discipline.ask(&mut self.held, now, signals, sink);
        book_shown(&mut self.row, &shown, signals);
        shown
    }

    /// Asks the node for its packet, as [`Node::peek`] does, after others were asked. Returns what the node shows, with what was dropped
    /// and marked for it and for those others, `so_far`, together.
    #[cycle(peek)]
    #[inline(always)]
    pub(crate) fn peek_after<S: Sink>(
        &mut self,
        so_far: Shown,
        now: Moment,
        signals: &mut Signals,
        sink: &mut S,
    ) -> Shown
        requires ready { CanAskOnce now self.old so_far (S.state sink.old).room }
        requires counted { signals.old ≡ signals_of so_far }
        ensures asked { IsAskedOnce now self.old self.new so_far result (S.state sink.old) (S.state sink.new) }
        ensures signals { signals.new ≡ signals_of result }
        ensures kept { S.keeps sink.old sink.new }
    {
        // Mostly nothing was dropped or marked so far, and the place is clean.
        if so_far.is_quiet() {
            return self.peek(now, signals, sink);
        }
        self.peek_after_counts(so_far, now, signals, sink)
    }

    // Asks the node where something was dropped or marked already for those before it.
    #[cycle(peek)]
    #[cold]
    #[inline(never)]
    fn peek_after_counts<S: Sink>(
        &mut self,
        so_far: Shown,
        now: Moment,
        signals: &mut Signals,
        sink: &mut S,
    ) -> Shown
        requires ready { CanAskOnce now self.old so_far (S.state sink.old).room }
        requires counted { signals.old ≡ signals_of so_far }
        ensures asked { IsAskedOnce now self.old self.new so_far result (S.state sink.old) (S.state sink.new) }
        ensures signals { signals.new ≡ signals_of result }
        ensures kept { S.keeps sink.old sink.new }
    {
        let mut asked = NO_SIGNALS;
        let next = self.peek(now, &mut asked, sink);
        so_far.then(next, signals, &asked)
    }

    /// Returns what the node shows where it was asked already: the packet that it has at hand, whose length alone is read, with what was
    /// dropped and marked so far.
    #[cycle(peek_again)]
    #[inline(never)]
    pub(crate) fn peek_again(&self, so_far: Shown) -> Shown
        ensures { result ≡ record so_far { packet = (pop self.now).shown } }
    {
        if self.held.is_some() {
            return so_far.showing(&self.held.packet());
        }
        match &self.discipline {
            Discipline::Fifo(fifo) => return so_far.showing(&first_packet(fifo)),
            Discipline::Prio { bands, .. } => return peek_bands_again(bands, so_far),
            Discipline::Tbf { .. } | Discipline::Drr { .. } | Discipline::FqCodel(_) => {
                return so_far.showing(&None);
            }
        }
    }

    /// Returns the packet that the node has at hand, without asking it: the one that it holds, a fifo's head, or that of a prio's first
    /// band which has one. Once the node was asked, this is the packet that it showed. `None` says that it has none at hand.
    #[cycle(at_hand)]
    pub(crate) fn at_hand(&self) -> Option<KeptPacket>
        ensures { result ≡ (pop self.now).shown }
    {
        if self.held.is_some() {
            return self.held.packet();
        }
        match &self.discipline {
            Discipline::Fifo(fifo) => return first_packet(fifo),
            Discipline::Prio { bands, .. } => return first_at_hand(bands),
            Discipline::Tbf { .. } | Discipline::Drr { .. } | Discipline::FqCodel(_) => {
                return None;
            }
        }
    }

    /// Returns when the packet arrived that the node has at hand; `None` where it has none. It is needed only where another node is to hold
    /// that packet.
    #[cycle(at_hand_since)]
    #[inline(always)]
    pub(crate) fn at_hand_since(&self) -> Option<Moment>
        ensures { result ≡ at_hand_since self.now }
    {
        if self.held.is_some() {
            return self.held.arrival();
        }
        match &self.discipline {
            Discipline::Fifo(fifo) => return first_arrival(fifo),
            Discipline::Prio { bands, .. } => return first_since(bands),
            Discipline::Tbf { .. } | Discipline::Drr { .. } | Discipline::FqCodel(_) => {
                return None;
            }
        }
    }
}

impl Discipline {
    // Returns what a node shows that has this discipline and holds no packet. A tbf, a drr and an fq_codel dequeue it, and hold it then.
    #[cycle(peek)]
    #[inline(always)]
    fn ask<S: Sink>(
        &mut self,
        held: &mut Held,
        now: Moment,
        signals: &mut Signals,
        sink: &mut S,
    ) -> Shown
        requires none { held.old ≡ None }
        requires asks { CanBegin (CanAskIn now self.old) (length (packets_within self.old)) (S.state sink.old).room signals.old }
        ensures after { (handle : Option ℕ) (filters : List Filter) → IsAskedIn (answer_of now handle filters self.old) self.old self.new result (S.state sink.old) (S.state sink.new) }
        ensures held { (handle : Option ℕ) (filters : List Filter) → held.new ≡ held_with (held_in (discipline_seen self.new) result.packet) (answer_of now handle filters self.old).peeked.own.since }
        ensures signals { signals.new ≡ signals_of result }
        ensures kept { S.keeps sink.old sink.new }
    {
        match self {
            Discipline::Fifo(fifo) => return Shown::at_hand(&first_packet(fifo)),
            Discipline::Prio { bands, .. } => return peek_bands(bands, now, signals, sink),
            Discipline::Tbf { bucket, child, .. } => {
                return peek_child(bucket, child, held, now, signals, sink);
            }
            Discipline::Drr { active, classes } => {
                return peek_classes(active, classes, held, now, signals, sink);
            }
            Discipline::FqCodel(queue) => return peek_flow(queue, held, now, signals, sink),
        }
    }
}
