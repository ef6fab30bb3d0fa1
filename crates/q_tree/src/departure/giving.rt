//! A departure for which nothing is lost or marked, as most are, at a qdisc whose children are fifos. Where it is another, nothing has changed.
//!
//! A drr may grant quanta to many classes before it meets one that can send, and these grants cannot be taken back. So it gives nothing in this
//! way unless all its classes are fifos: an active one has a packet then, and each walk ends in a departure.
ghost use Rattle.std.specs.Prelude.{◌≡◌, ◌≤◌, ◌<◌, All, length, List, [], ◌∷◌, None, Option, Some, true, false, option_map, ℕ};
ghost use Rattle.q_bucket.specs.Level.{TokenBucket};
ghost use Rattle.q_packet.specs.Descriptor.{Descriptor};
ghost use Rattle.q_model.specs.Ask.{ask_prio, ask_tbf};
ghost use Rattle.q_model.specs.Node.{Own, Tbf};
ghost use Rattle.q_model.specs.Pop.{pop};
ghost use Rattle.q_model.specs.declared.filter.Filter.{Filter};
ghost use Rattle.q_tree.specs.arrival.KeepSteps.{no_sink};
ghost use Rattle.q_tree.specs.Bursts.{IsGivenOut};
ghost use Rattle.q_tree.specs.commands.DisciplineChanges.{IsUnchanged};
ghost use Rattle.q_tree.specs.departure.AskSteps.{AreAsked, CanAsk, CanAskEach, CanAskIn, answer_of, answers};
ghost use Rattle.q_tree.specs.departure.GiveMany.{AreGivenAlong, AreGivenIn, CanGiveEach};
ghost use Rattle.q_tree.specs.departure.GiveSteps.{CanGive, CanGiveFrom, CanServeHeads, CanSpendHead, HasFifoClasses, HasFirstHead, IsFreeFifo, IsIdleIn, IsNoFifo, IsQuick, IsQuickIn, alone};
ghost use Rattle.q_tree.specs.departure.PopSteps.{HasHead};
ghost use Rattle.q_tree.specs.departure.SendSteps.{AreSent, IsSentIn};
ghost use Rattle.q_tree.specs.disciplines.Meeting.{HasServed};
ghost use Rattle.q_tree.specs.Seen.{children_seen, discipline_seen};

use crate::arrival::keep::totals;
use crate::bursts::book_sends;
use crate::counters::booking::NOTHING;
use crate::disciplines::drr::{settle, turn_class};
use crate::node::{Discipline, Node};
use crate::tree::Tree;
use q_bucket::Bucket;
use q_codel::Told;
use q_drr::{Active, Round, Turn};
use q_model::Totals;
use q_packet::{KeptPacket, Moment, SOME_KEPT};

impl Tree {
    /// Sends packets in order, all at the time `now`, as long as each goes with nothing lost or marked. Returns how many. The root is no fifo, and
    /// if it is a drr, all its classes are.
    pub(crate) fn send_some<T: Told>(&mut self, now: Moment, places: &mut [T]) -> usize
        requires order { self.old.clock ≤ now }
        requires other { IsNoFifo self.old.tree.root.own.discipline }
        requires quick { IsQuick self.old.tree.root }
        ensures given { IsGivenOut T.told now result places.old places.new self.old self.new }
        ensures most { result ≤ length places.old }
        ensures other { IsNoFifo self.new.tree.root.own.discipline }
        ensures below { result < length places.old → CanGive now self.new.tree.root → ⊥ }
        ensures idle { result < length places.old → IsIdleIn self.new.tree.root.own.discipline }
    {
        // A time is at most 2^62 nanoseconds.
        let _ = now.ns();
        self.top.fit();
        let sent = self.root.give_some(now, places);
        if sent.packets == 0 {
            return 0;
        }
        book_sends(&mut self.top, &sent);
        self.clock = now;
        sent.packets as usize
    }
}

impl Node {
    // Gives packets of a node that is no fifo, and counts them together.
    fn give_some<T: Told>(&mut self, now: Moment, places: &mut [T]) -> Totals
        requires asks { CanAsk now self.old }
        requires other { IsNoFifo self.old.own.discipline }
        requires quick { IsQuick self.old }
        ensures most { result.packets ≤ length places.old }
        ensures given { AreGivenAlong T.told now result places.old places.new self.old self.new }
        ensures none { result.packets ≡ 0 → self.new ≡ self.old }
        ensures other { IsNoFifo self.new.own.discipline }
        ensures below { result.packets < length places.old → CanGive now self.new → ⊥ }
        ensures idle { result.packets < length places.old → IsIdleIn self.new.own.discipline }
    {
        self.row.fit();
        if self.held.is_some() {
            return NOTHING;
        }
        let sent = give_each(&mut self.discipline, now, places);
        if sent.packets == 0 {
            return sent;
        }
        book_sends(&mut self.row, &sent);
        sent
    }

    /// Returns whether the node is a drr that holds nothing, and all of whose classes are fifos. It is asked before a burst of departures: more
    /// classes than `most`, or than packets that are queued, are not looked at, so that what is looked at is paid for by what goes.
    #[inline(always)]
    pub(crate) fn has_fifo_classes(&self, most: usize) -> bool
        ensures means { result ≡ true → IsQuick self.now }
        ensures comes { HasFifoClasses most self.now → result ≡ true }
    {
        if self.held.is_some() {
            return false;
        }
        let Discipline::Drr { classes, .. } = &self.discipline else {
            return false;
        };
        if classes.len() > most {
            return false;
        }
        if classes.len() as u64 > self.queued().packets {
            return false;
        }
        are_free_fifos(classes)
    }

    // Returns whether the node is a fifo that holds nothing.
    #[inline(always)]
    fn is_a_free_fifo(&self) -> bool
        ensures means { result ≡ true → IsFreeFifo self.now }
        ensures comes { IsFreeFifo self.now → result ≡ true }
    {
        if self.held.is_some() {
            return false;
        }
        let Discipline::Fifo(_) = &self.discipline else {
            return false;
        };
        true
    }

    /// The length of the head of a fifo that has one.
    #[inline(always)]
    fn head_len(&self) -> u16
        requires { HasHead self.now }
        ensures { option_map (λ (p : Descriptor). p.len) (pop self.now).shown ≡ Some result }
    {
        let Discipline::Fifo(fifo) = &self.discipline else {
            unreachable!()
        };
        let Some(packet) = fifo.first() else {
            unreachable!()
        };
        packet.stored.len
    }
}

impl Discipline {
    // Gives the packet of a node with this discipline, which holds none.
    #[inline(always)]
    fn give_one(&mut self, now: Moment, out: &mut KeptPacket) -> bool
        requires asks { CanAskIn now self.old }
        requires quick { IsQuickIn None (children_seen self.old) (discipline_seen self.old) }
        ensures given { result ≡ true → (handle : Option ℕ) (filters : List Filter) → IsSentIn (answer_of now handle filters self.old) self.old self.new (alone out.new) no_sink no_sink }
        ensures other { result ≡ true → IsNoFifo (discipline_seen self.new) }
        ensures quick { result ≡ true → IsQuickIn None (children_seen self.new) (discipline_seen self.new) }
        ensures same { result ≡ false → IsUnchanged self.old self.new }
        ensures comes { CanGiveFrom now (children_seen self.old) (discipline_seen self.old) → result ≡ true }
        ensures idle { result ≡ false → IsIdleIn (discipline_seen self.old) }
        ensures none { result ≡ false → out.new ≡ out.old }
    {
        match self {
            Discipline::Prio { bands, .. } => return give_from_bands(bands, now, out),
            Discipline::Tbf { bucket, child, .. } => {
                return give_from_child(bucket, child, now, out);
            }
            Discipline::Drr { active, classes } => {
                return give_from_classes(active, classes, now, out);
            }
            _ => return false,
        }
    }
}

// Gives the head of the first band that has a packet, where those before it are fifos that have none, and it is a fifo.
fn give_from_bands(bands: &mut [Node], now: Moment, out: &mut KeptPacket) -> bool
    requires asks { CanAskEach now bands.old }
    ensures given { result ≡ true → (own : Own) → AreSent (ask_prio own (answers now bands.old)) bands.old bands.new (alone out.new) no_sink no_sink }
    ensures same { result ≡ false → bands.new ≡ bands.old }
    ensures comes { HasFirstHead bands.old → result ≡ true }
    ensures none { result ≡ false → out.new ≡ out.old }
{
    for place in 0..bands.len() {
        if bands[place].is_an_empty_fifo() {
            continue;
        }
        if !bands[place].has_head() {
            return false;
        }
        bands[place].send_head(out);
        return true;
    }
    false
}

// Gives packets of a discipline whose node holds none. Returns how many, and their bytes.
fn give_each<T: Told>(discipline: &mut Discipline, now: Moment, places: &mut [T]) -> Totals
    requires ready { CanGiveEach now discipline.old }
    ensures most { result.packets ≤ length places.old }
    ensures given { AreGivenIn T.told now result places.old places.new discipline.old discipline.new }
    ensures other { IsNoFifo (discipline_seen discipline.old) → IsNoFifo (discipline_seen discipline.new) }
    ensures quick { IsQuickIn None (children_seen discipline.new) (discipline_seen discipline.new) }
    ensures below { result.packets < length places.old → CanGiveFrom now (children_seen discipline.new) (discipline_seen discipline.new) → ⊥ }
    ensures idle { result.packets < length places.old → IsIdleIn (discipline_seen discipline.new) }
{
    let mut packet = SOME_KEPT;
    let mut bytes = 0;
    for i in 0..places.len() {
        if !discipline.give_one(now, &mut packet) {
            return totals(i, bytes);
        }
        bytes += u64::from(packet.stored.len);
        places[i] = T::tell(&packet);
    }
    totals(places.len(), bytes)
}

// Returns whether each node is a fifo that holds nothing.
fn are_free_fifos(nodes: &[Node]) -> bool
    ensures means { result ≡ true → All IsFreeFifo nodes.now }
    ensures comes { All IsFreeFifo nodes.now → result ≡ true }
{
    for place in 0..nodes.len() {
        if !nodes[place].is_a_free_fifo() {
            return false;
        }
    }
    true
}

// Gives the head of the class whose turn it is, where all classes of a drr are fifos: each class in front whose deficit does not cover its head is
// granted its quantum, until one is met that can send.
fn give_from_classes(
    active: &mut Active,
    classes: &mut [Node],
    now: Moment,
    out: &mut KeptPacket,
) -> bool
    requires serves { CanServeHeads now active.old classes.old }
    ensures given { result ≡ true → (own : Own) → HasServed own now active.old active.new classes.old classes.new (alone out.new) no_sink no_sink }
    ensures fifos { result ≡ true → All IsFreeFifo classes.new }
    ensures same { result ≡ false → (active.new ≡ active.old) × (classes.new ≡ classes.old) }
    ensures idle { result ≡ false → active.old.active ≡ [] }
    ensures none { result ≡ false → out.new ≡ out.old }
{
    let mut unasked = active.active_count();
    let mut round = Round::new();
    while let Some(place) = active.front_place() {
        let len = classes[place].head_len();
        match turn_class(active, &mut round, len, unasked > 0) {
            Turn::Send => {
                classes[place].send_head(out);
                settle(active, place, classes[place].is_empty());
                return true;
            }
            Turn::Granted => unasked = unasked.saturating_sub(1),
        }
    }
    false
}

// Gives the head of a tbf's child that is a fifo, where the bucket allows it.
fn give_from_child(bucket: &mut Bucket, child: &mut Node, now: Moment, out: &mut KeptPacket) -> bool
    requires asks { CanAsk now child.old }
    requires order { bucket.old.last ≤ now }
    ensures bucket { result ≡ true → (own : Own) (limit : ℕ) → own.discipline ≡ Tbf bucket.old limit → Tbf bucket.new limit ≡ (ask_tbf now own (answers now (child.old ∷ [])) bucket.old limit).peeked.own.discipline }
    ensures given { result ≡ true → (own : Own) (limit : ℕ) → AreAsked (ask_tbf now own (answers now (child.old ∷ [])) bucket.old limit) (child.old ∷ []) (child.new ∷ []) (alone out.new) no_sink no_sink }
    ensures same { result ≡ false → (child.new ≡ child.old) × (bucket.new ≡ bucket.old) }
    ensures comes { CanSpendHead now bucket.old (child.old ∷ []) → result ≡ true }
    ensures none { result ≡ false → out.new ≡ out.old }
{
    if !child.has_head() {
        return false;
    }
    if !bucket.spend(now, child.head_len()) {
        return false;
    }
    child.send_head(out);
    true
}
