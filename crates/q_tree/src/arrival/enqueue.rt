//! An arrival, in one walk down the packet's route and back.
//!
//! On the way down each node either takes the packet, refuses it, or passes it on to one child: a leaf queues it or drops at its limit, a
//! qdisc with classes goes by its filters, and where none matches by its own rule, which is `choose` in the file of its discipline. The
//! leaf makes the place for it, which is all that can fail, before anything else has changed. On the way back each node books the outcome
//! in its row: that the packet came, whether it was kept, and what was lost for it below, as where an fq_codel drops from its fattest flow;
//! a drr also makes the class active.
//!
//! A fifo that has a place is met without a call, at the root and wherever the walk comes to one, since most packets end there.
ghost use Rattle.std.specs.Prelude.{◌≡◌, ◌≤◌, ◌+◌, IfOk, IsOk, List, None, OnErr, OnOk, length, true, ℕ};
ghost use Rattle.q_codel.specs.Losses.{SinkState};
ghost use Rattle.q_model.specs.Beneath as beneath;
ghost use Rattle.q_model.specs.Beneath.{beneath};
ghost use Rattle.q_model.specs.Node.{shape};
ghost use Rattle.q_model.specs.Route.{device_route, route};
ghost use Rattle.q_model.specs.Step.{fate_of};
ghost use Rattle.q_model.specs.Tally.{totals};
ghost use Rattle.q_model.specs.TreeState.{noted_by_put, own_loss, put, put_on};
ghost use Rattle.q_packet.specs.Descriptor.{Descriptor};
ghost use Rattle.q_packet.specs.Stored.{descriptor, IsStored};
ghost use Rattle.q_tree.specs.arrival.Arrivals.{CanCount, HasPlace};
ghost use Rattle.q_tree.specs.arrival.ArriveSteps.{CanCome, CanComeIn, CanKeep, HasArrived, HasCome, HasComeBelow, HasComeIn, HasPlaceOn, IsPlaced, IsPlacedIn, nothing_lost, rises_along, way_in};
ghost use Rattle.q_tree.specs.arrival.Places.{places_at};
ghost use Rattle.q_tree.specs.departure.AskSteps.{IsToldOf, packets_within};
ghost use Rattle.q_tree.specs.Kept.{kept};
ghost use Rattle.q_tree.specs.route.RouteSeen.{RouteSeen, route_seen};
ghost use Rattle.q_tree.specs.TreeSeen.{CanArrive, numbers, tree_numbers};

use crate::arrival::arrived::{Arrived, NOTHING_LOST, book_arrival, book_kept, refuse};
use crate::arrival::outcome::Outcome;
use crate::disciplines::drr::settle;
use crate::disciplines::fifo::enqueue_in_fifo;
use crate::disciplines::fq_codel::enqueue_in_flows;
use crate::disciplines::{drr, prio, tbf};
use crate::filters::Filters;
use crate::node::{Discipline, Node};
use crate::route::choice::Choice;
use crate::tree::Tree;
use q_codel::Sink;
use q_model::Fate;
use q_packet::{Cause, KeptPacket, Moment, StoredPacket};
use std::alloc::AllocError;

impl Tree {
    /// Lets a packet arrive: in one walk down its route a place is made where it is queued, and it is put there, or lost. Returns whether
    /// it was kept, or why it was not. `now` is at or after the latest time that the tree was given. The call does what [`Tree::route`],
    /// [`Tree::prepare`] and [`Tree::put`] do, in one.
    ///
    /// What is lost for it goes to `sink`, which needs room for what is queued and one packet more. Memory is allocated for the place
    /// alone, and none for a packet that is refused.
    ///
    /// # Errors
    ///
    /// Returns `AllocError` if an allocation fails, or if the packet would take what the device counts of arrivals past 2^64 - 1, in
    /// packets or in bytes; never where [`Tree::prepare`] has made the place and the counts have room. The tree is then as it was, but for
    /// places, of which no queue has fewer, and nothing is lost.
    pub fn arrive<S: Sink>(
        &mut self,
        packet: &KeptPacket,
        now: Moment,
        sink: &mut S,
    ) -> Result<Fate, AllocError>
        requires order { self.old.clock ≤ now }
        requires sink { length (beneath self.old.tree.root) + 1 ≤ (S.state sink.old).room }
        ensures fate { IfOk result (λ fate. fate ≡ fate_of (own_loss now packet.now self.old.tree.device (shape self.old.tree.root))) }
        ensures after { OnOk result (numbers self.new ≡ record { clock = now; tree = put totals now packet.now (tree_numbers self.old.tree) }) }
        ensures lost { OnOk result (IsToldOf (noted_by_put now packet.now self.old.tree) (S.state sink.old) (S.state sink.new)) }
        ensures counted { OnOk result (CanCount self.old.tree.top.counts.arrived packet.now) }
        ensures same { OnErr result (numbers self.new ≡ numbers self.old) }
        ensures not_lost { OnErr result (S.state sink.new ≡ S.state sink.old) }
        ensures routes { OnErr result ((p : Descriptor) → device_route p self.new.tree.device.mtu self.new.tree.root ≡ device_route p self.old.tree.device.mtu self.old.tree.root) }
        ensures keeps { OnErr result ((other : RouteSeen) → CanArrive other self.old → CanArrive other self.new) }
        ensures places { (path : List ℕ) → places_at path self.old.tree.root ≤ places_at path self.new.tree.root }
        ensures succeeds { CanArrive (route_seen packet.now self.old.tree.device.mtu self.old.tree.root) self.old → IsOk result }
        ensures kept { S.keeps sink.old sink.new }
    {
        self.top.fit();
        let arrived = self.top.arrived();
        if arrived.packets == u64::MAX || arrived.bytes > u64::MAX - u64::from(packet.stored.len) {
            return Err(AllocError);
        }
        self.arrive_counted(packet, now, sink)
    }

    /// Lets a packet arrive, as [`Tree::arrive`] does, where the caller knows that what the device counts of arrivals has room for it.
    ///
    /// # Errors
    ///
    /// Returns `AllocError` if an allocation fails; never where [`Tree::prepare`] has made the place. The tree is then as it was, but for
    /// places, of which no queue has fewer, and nothing is lost.
    // A device calls it at two places, and at one of them seldom: the other is to be without a call.
    #[inline(always)]
    pub fn arrive_counted<S: Sink>(
        &mut self,
        packet: &KeptPacket,
        now: Moment,
        sink: &mut S,
    ) -> Result<Fate, AllocError>
        requires order { self.old.clock ≤ now }
        requires counted { CanCount self.old.tree.top.counts.arrived packet.now }
        requires sink { length (beneath self.old.tree.root) + 1 ≤ (S.state sink.old).room }
        ensures fate { IfOk result (λ fate. fate ≡ fate_of (own_loss now packet.now self.old.tree.device (shape self.old.tree.root))) }
        ensures after { OnOk result (numbers self.new ≡ record { clock = now; tree = put totals now packet.now (tree_numbers self.old.tree) }) }
        ensures exact { OnOk result (CanArrive (route_seen packet.now self.old.tree.device.mtu self.old.tree.root) self.old → self.new ≡ record { clock = now; tree = put kept now packet.now self.old.tree }) }
        ensures lost { OnOk result (IsToldOf (noted_by_put now packet.now self.old.tree) (S.state sink.old) (S.state sink.new)) }
        ensures same { OnErr result (numbers self.new ≡ numbers self.old) }
        ensures not_lost { OnErr result (S.state sink.new ≡ S.state sink.old) }
        ensures routes { OnErr result ((p : Descriptor) → device_route p self.new.tree.device.mtu self.new.tree.root ≡ device_route p self.old.tree.device.mtu self.old.tree.root) }
        ensures keeps { OnErr result ((other : RouteSeen) → CanArrive other self.old → CanArrive other self.new) }
        ensures places { (path : List ℕ) → places_at path self.old.tree.root ≤ places_at path self.new.tree.root }
        ensures succeeds { CanArrive (route_seen packet.now self.old.tree.device.mtu self.old.tree.root) self.old → IsOk result }
        ensures kept { S.keeps sink.old sink.new }
    {
        // A time is at most 2^62 nanoseconds, and a packet has a byte at least.
        let _ = (now.ns(), packet.stored.len);
        // A fifo at the root keeps the packet with no answer from below.
        if packet.stored.len <= self.mtu && self.root.can_keep(packet.stored.len) {
            self.root.keep(packet, now);
            book_kept(&mut self.top, packet);
            self.clock = now;
            return Ok(Fate::Kept);
        }
        self.arrive_down(packet, now, sink)
    }

    /// Lets a stored packet arrive, each field of which is within its range, as [`Tree::arrive_counted`] does with a packet.
    ///
    /// # Errors
    ///
    /// Returns `AllocError` where [`Tree::arrive_counted`] does.
    #[inline(always)]
    pub fn arrive_stored<S: Sink>(
        &mut self,
        packet: &StoredPacket,
        now: Moment,
        sink: &mut S,
    ) -> Result<Fate, AllocError>
        requires order { self.old.clock ≤ now }
        requires in_range { IsStored packet.now }
        requires counted { CanCount self.old.tree.top.counts.arrived (descriptor packet.now) }
        requires sink { length (beneath self.old.tree.root) + 1 ≤ (S.state sink.old).room }
        ensures fate { IfOk result (λ fate. fate ≡ fate_of (own_loss now (descriptor packet.now) self.old.tree.device (shape self.old.tree.root))) }
        ensures after { OnOk result (numbers self.new ≡ record { clock = now; tree = put totals now (descriptor packet.now) (tree_numbers self.old.tree) }) }
        ensures exact { OnOk result (CanArrive (route_seen (descriptor packet.now) self.old.tree.device.mtu self.old.tree.root) self.old → self.new ≡ record { clock = now; tree = put kept now (descriptor packet.now) self.old.tree }) }
        ensures lost { OnOk result (IsToldOf (noted_by_put now (descriptor packet.now) self.old.tree) (S.state sink.old) (S.state sink.new)) }
        ensures same { OnErr result (numbers self.new ≡ numbers self.old) }
        ensures not_lost { OnErr result (S.state sink.new ≡ S.state sink.old) }
        ensures routes { OnErr result ((p : Descriptor) → device_route p self.new.tree.device.mtu self.new.tree.root ≡ device_route p self.old.tree.device.mtu self.old.tree.root) }
        ensures keeps { OnErr result ((other : RouteSeen) → CanArrive other self.old → CanArrive other self.new) }
        ensures places { (path : List ℕ) → places_at path self.old.tree.root ≤ places_at path self.new.tree.root }
        ensures succeeds { CanArrive (route_seen (descriptor packet.now) self.old.tree.device.mtu self.old.tree.root) self.old → IsOk result }
        ensures kept { S.keeps sink.old sink.new }
    {
        // A time is at most 2^62 nanoseconds, and a packet has a byte at least.
        let _ = (now.ns(), packet.len);
        if packet.len <= self.mtu && self.root.can_keep(packet.len) {
            self.root.keep_stored(packet, now);
            book_kept(&mut self.top, &KeptPacket { stored: *packet });
            self.clock = now;
            return Ok(Fate::Kept);
        }
        self.arrive_down(&KeptPacket { stored: *packet }, now, sink)
    }

    // Lets a packet arrive by the path down from the root, from where an outcome comes back.
    #[inline(always)]
    fn arrive_down<S: Sink>(
        &mut self,
        packet: &KeptPacket,
        now: Moment,
        sink: &mut S,
    ) -> Result<Fate, AllocError>
        requires order { self.old.clock ≤ now }
        requires counted { CanCount self.old.tree.top.counts.arrived packet.now }
        requires sink { length (beneath self.old.tree.root) + 1 ≤ (S.state sink.old).room }
        ensures fate { IfOk result (λ fate. fate ≡ fate_of (own_loss now packet.now self.old.tree.device (shape self.old.tree.root))) }
        ensures after { OnOk result (numbers self.new ≡ record { clock = now; tree = put totals now packet.now (tree_numbers self.old.tree) }) }
        ensures exact { OnOk result (CanArrive (route_seen packet.now self.old.tree.device.mtu self.old.tree.root) self.old → self.new ≡ record { clock = now; tree = put kept now packet.now self.old.tree }) }
        ensures told { OnOk result (IsToldOf (noted_by_put now packet.now self.old.tree) (S.state sink.old) (S.state sink.new)) }
        ensures same { OnErr result (numbers self.new ≡ numbers self.old) }
        ensures not_lost { OnErr result (S.state sink.new ≡ S.state sink.old) }
        ensures routes { OnErr result ((p : Descriptor) → device_route p self.new.tree.device.mtu self.new.tree.root ≡ device_route p self.old.tree.device.mtu self.old.tree.root) }
        ensures keeps { OnErr result ((other : RouteSeen) → CanArrive other self.old → CanArrive other self.new) }
        ensures places { (path : List ℕ) → places_at path self.old.tree.root ≤ places_at path self.new.tree.root }
        ensures succeeds { CanArrive (route_seen packet.now self.old.tree.device.mtu self.old.tree.root) self.old → IsOk result }
        ensures kept { S.keeps sink.old sink.new }
    {
        // A time is at most 2^62 nanoseconds, and a packet has a byte at least.
        let _ = (now.ns(), packet.stored.len);
        let mut lost = NOTHING_LOST;
        let outcome = enqueue_below(&mut self.root, self.mtu, packet, now, &mut lost, sink)?;
        book_arrival(&mut self.top, packet, &outcome, &lost);
        self.clock = now;
        Ok(outcome.fate(&lost))
    }
}

impl Node {
    /// Returns whether the node is a fifo that takes a packet of `len` bytes, and has a place for it.
    #[inline(always)]
    pub(crate) fn can_keep(&self, len: u16) -> bool
        ensures means { result ≡ true → CanKeep len self.now }
        ensures comes { CanKeep len self.now → result ≡ true }
    {
        let Discipline::Fifo(fifo) = &self.discipline else {
            return false;
        };
        fifo.fits(len) && fifo.has_place()
    }

    /// Keeps a packet that arrives at a fifo which takes it and has a place for it. No packet is lost for it.
    #[inline(always)]
    pub(crate) fn keep(&mut self, packet: &KeptPacket, now: Moment)
        requires ready { CanCome now packet.now self.old }
        requires fifo { CanKeep packet.now.len self.old }
        ensures after { HasCome now packet.now self.old self.new nothing_lost }
        ensures told { (sink : SinkState) → IsToldOf (rises_along now packet.now self.old) sink sink }
    {
        let Discipline::Fifo(fifo) = &mut self.discipline else {
            unreachable!()
        };
        fifo.put_from(packet, now);
        book_kept(&mut self.row, packet);
    }

    /// Keeps a stored packet, each field of which is within its range, as [`Node::keep`] keeps a packet.
    #[inline(always)]
    fn keep_stored(&mut self, packet: &StoredPacket, now: Moment)
        requires in_range { IsStored packet.now }
        requires ready { CanCome now (descriptor packet.now) self.old }
        requires fifo { CanKeep packet.now.len self.old }
        ensures after { HasCome now (descriptor packet.now) self.old self.new nothing_lost }
        ensures told { (sink : SinkState) → IsToldOf (rises_along now (descriptor packet.now) self.old) sink sink }
    {
        let Discipline::Fifo(fifo) = &mut self.discipline else {
            unreachable!()
        };
        fifo.put_stored(packet, now);
        book_kept(&mut self.row, &KeptPacket { stored: *packet });
    }

    /// Lets a packet arrive at the node, and go down its route: a place is made where it is queued, and it is put there, or lost. It
    /// is booked at each node on the way back. Returns whether it was kept; what was lost is in `lost` then.
    ///
    /// # Errors
    ///
    /// Returns `AllocError` if an allocation fails. Nothing is booked then, and nothing is lost.
    #[cycle(enqueue)]
    #[inline(always)]
    pub(crate) fn enqueue<S: Sink>(
        &mut self,
        packet: &KeptPacket,
        now: Moment,
        lost: &mut Outcome,
        sink: &mut S,
    ) -> Result<Arrived, AllocError>
        requires ready { CanCome now packet.now self.old }
        requires sink { length (beneath self.old) + 1 ≤ (S.state sink.old).room }
        requires clean { lost.old ≡ nothing_lost }
        ensures arrives { HasArrived result (HasCome now packet.now self.old self.new) (IsPlaced self.old self.new)
            ((route packet.now self.old).refusal ≡ None → HasPlace (route packet.now self.old).path self.old) lost.new (S.state sink.old) (S.state sink.new) }
        ensures told { OnOk result (IsToldOf (rises_along now packet.now self.old) (S.state sink.old) (S.state sink.new)) }
        ensures kept { S.keeps sink.old sink.new }
    {
        // A fifo that has a place is met with no call: most packets end in one.
        if self.can_keep(packet.stored.len) {
            self.keep(packet, now);
            return Ok(Arrived::kept());
        }
        self.enqueue_further(packet, now, lost, sink)
    }

    // Does the same by a call, also where a fifo has to make a place or refuses the packet.
    #[cycle(enqueue)]
    #[inline(never)]
    fn enqueue_further<S: Sink>(
        &mut self,
        packet: &KeptPacket,
        now: Moment,
        lost: &mut Outcome,
        sink: &mut S,
    ) -> Result<Arrived, AllocError>
        requires ready { CanCome now packet.now self.old }
        requires sink { length (beneath self.old) + 1 ≤ (S.state sink.old).room }
        requires clean { lost.old ≡ nothing_lost }
        ensures arrives { HasArrived result (HasCome now packet.now self.old self.new) (IsPlaced self.old self.new)
            ((route packet.now self.old).refusal ≡ None → HasPlace (route packet.now self.old).path self.old) lost.new (S.state sink.old) (S.state sink.new) }
        ensures told { OnOk result (IsToldOf (rises_along now packet.now self.old) (S.state sink.old) (S.state sink.new)) }
        ensures kept { S.keeps sink.old sink.new }
    {
        let outcome = self
            .discipline
            .enqueue(&self.filters, packet, now, lost, sink)?;
        book_arrival(&mut self.row, packet, &outcome, lost);
        Ok(outcome)
    }
}

impl Discipline {
    // Lets a packet arrive at a node with this discipline and these filters.
    #[cycle(enqueue)]
    #[inline(always)]
    fn enqueue<S: Sink>(
        &mut self,
        filters: &Filters,
        packet: &KeptPacket,
        now: Moment,
        lost: &mut Outcome,
        sink: &mut S,
    ) -> Result<Arrived, AllocError>
        requires ready { CanComeIn now packet.now self.old }
        requires sink { length (packets_within self.old) + 1 ≤ (S.state sink.old).room }
        requires clean { lost.old ≡ nothing_lost }
        ensures arrives { HasArrived result (λ outcome. HasComeIn now packet.now filters.now self.old self.new outcome (S.state sink.old) (S.state sink.new)) (IsPlacedIn self.old self.new)
            ((way_in packet.now filters.now self.old).refusal ≡ None → HasPlaceOn (way_in packet.now filters.now self.old).path self.old) lost.new (S.state sink.old) (S.state sink.new) }
        ensures kept { S.keeps sink.old sink.new }
    {
        match self {
            Discipline::Fifo(fifo) => return enqueue_in_fifo(fifo, packet, now, lost, sink),
            Discipline::FqCodel(queue) => return enqueue_in_flows(queue, packet, now, lost, sink),
            Discipline::Prio { .. } => {
                let Discipline::Prio { priomap, bands } = &*self else {
                    unreachable!()
                };
                let choice = prio::choose(filters, priomap, bands.len(), packet);
                let Discipline::Prio { bands, .. } = self else {
                    unreachable!()
                };
                match choice {
                    Choice::Child(place) => return bands[place].enqueue(packet, now, lost, sink),
                    Choice::Refused(cause) => return Ok(refuse(packet, cause, lost, sink)),
                    Choice::Here => unreachable!(),
                }
            }
            Discipline::Tbf { bucket, child, .. } => match tbf::choose(bucket, packet) {
                Choice::Child(_) => return child.enqueue(packet, now, lost, sink),
                Choice::Refused(cause) => return Ok(refuse(packet, cause, lost, sink)),
                Choice::Here => unreachable!(),
            },
            Discipline::Drr { active, classes } => {
                match drr::choose(active, filters, classes.len(), packet) {
                    Choice::Child(place) => {
                        let outcome = classes[place].enqueue(packet, now, lost, sink)?;
                        settle(active, place, classes[place].is_empty());
                        return Ok(outcome);
                    }
                    Choice::Refused(cause) => return Ok(refuse(packet, cause, lost, sink)),
                    Choice::Here => unreachable!(),
                }
            }
        }
    }
}

// Lets the packet arrive at the root, or refuses it above the root where it is longer than the mtu.
#[inline(always)]
fn enqueue_below<S: Sink>(
    root: &mut Node,
    mtu: u16,
    packet: &KeptPacket,
    now: Moment,
    lost: &mut Outcome,
    sink: &mut S,
) -> Result<Arrived, AllocError>
    requires ready { packet.now.len ≤ mtu → CanCome now packet.now root.old }
    requires sink { length (beneath root.old) + 1 ≤ (S.state sink.old).room }
    requires clean { lost.old ≡ nothing_lost }
    ensures arrives { HasArrived result (HasComeBelow now packet.now (device_route packet.now mtu root.old) root.old root.new) (IsPlaced root.old root.new)
        (packet.now.len ≤ mtu → (route packet.now root.old).refusal ≡ None → HasPlace (route packet.now root.old).path root.old) lost.new (S.state sink.old) (S.state sink.new) }
    ensures told { OnOk result (IsToldOf (put_on now packet.now (device_route packet.now mtu root.old) (shape root.old)).rises (S.state sink.old) (S.state sink.new)) }
    ensures kept { S.keeps sink.old sink.new }
{
    if packet.stored.len > mtu {
        return Ok(refuse(packet, Cause::TooLong, lost, sink));
    }
    root.enqueue_further(packet, now, lost, sink)
}
