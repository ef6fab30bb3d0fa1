ghost use Rattle.std.specs.Prelude.{◌≡◌, ◌≤◌, ◌+◌, IfErr, IfOk, IfSome, IsOk, List, OnErr, OnOk, length, option_map, slice_get, ℕ};
ghost use Rattle.q_model.specs.Beneath.{beneath, row_of};
ghost use Rattle.q_model.specs.Node.{shape};
ghost use Rattle.q_model.specs.Route.{device_route};
ghost use Rattle.q_model.specs.Step.{fate_of};
ghost use Rattle.q_model.specs.Tally.{totals};
ghost use Rattle.q_model.specs.TreeState.{given, new_tree, noted_by_put, noted_by_take, own_loss, peek_packet, put, stats, take_packet};
ghost use Rattle.q_model.specs.Views.{class_of, filter_of, node};
ghost use Rattle.q_model.specs.declared.place.Place.TheVariants as place;
ghost use Rattle.q_model.specs.declared.refusal.Refusal.TheVariants as refusal;
ghost use Rattle.q_packet.specs.Descriptor.{Descriptor};
ghost use Rattle.q_codel.specs.Losses.{IsTold};
ghost use Rattle.q_tree.specs.answers.Showing.{IsNumbered, standing};
ghost use Rattle.q_tree.specs.arrival.Places.{places_at};
ghost use Rattle.q_tree.specs.commands.Commanding.{WantsMemory};
ghost use Rattle.q_tree.specs.commands.Commands.{IsPlanOf, IsPlanned, device_edited, plan_of};
ghost use Rattle.q_tree.specs.commands.Editing.{LosesNothing, TakesMemory, removed_at};
ghost use Rattle.q_tree.specs.commands.Planning.{IsLossless};
ghost use Rattle.q_tree.specs.commands.Purging.{purged};
ghost use Rattle.q_tree.specs.departure.AskSteps.{IsToldOf};
ghost use Rattle.q_tree.specs.Kept.{kept};
ghost use Rattle.q_tree.specs.route.RouteSeen.{RouteSeen, route_seen};
ghost use Rattle.q_tree.specs.TreeSeen.{CanArrive, IsRouteIn, numbers};

use crate::commands::handles::Handles;
use crate::commands::planned::Planned;
use crate::commands::planner::Planner;
use crate::commands::qdiscs::Qdiscs;
use crate::counters::Counters;
use crate::counters::booking::{book_dropped, book_shown};
use crate::departure::signals::NO_SIGNALS;
use crate::node::Node;
use crate::route::Route;
use crate::route::node_route::NodeRoute;
use q_codel::{Limit, Sink};
use q_model::{ClassView, Command, Fate, FilterView, NodeView, Place, Refusal, Row};
use q_packet::{Cause, KeptPacket, Moment, Packet, SOME_KEPT};
use std::alloc::{AllocError, Global};
use std::marker::Model;

/// The qdiscs of a device, and the counters of the device itself above their root.
///
/// In contracts a tree is the device of the model, whose nodes remember what they counted and how many places their queues have. Its invariant is
/// all that holds of every device after any events: what arrived at a node is what it has sent, lost or still has; every discipline is lawful;
/// there are at most eight levels; and the index of handles has the handles of the tree and no others, each with the path to its qdisc.
#[derive(Drop)]
pub struct Tree {
    pub(crate) mtu: u16,
    txqueuelen: u32,
    /// The latest time that it was given.
    pub(crate) clock: Moment,
    pub(crate) top: Counters,
    pub(crate) root: Node,
    /// The paths to the handles below the root, by which commands find their qdiscs.
    pub(crate) handles: Handles,
}

impl Model for Tree {
    ghost use Rattle.q_model.specs.Step.{DeviceState};
    ghost use Rattle.q_tree.specs.Kept.{Kept};
    ghost use Rattle.q_tree.specs.NodeCode.{device_code};

    ghost Value = { DeviceState Kept };

    ghost coded = { device_code };

    ghost use Rattle.q_tree.specs.TreeSeen.{tree_seen, IsIndexedDevice};

    ghost view = { tree_seen };

    ghost invariant = { IsIndexedDevice };
}

impl Tree {
    /// Makes a tree with one pfifo of `txqueuelen` packets, for packets of at most `mtu` bytes. The `mtu` is at least 1.
    pub fn new(alloc: Global, mtu: u16, txqueuelen: u32) -> Tree
        requires { 1 ≤ mtu }
        ensures { numbers result ≡ record { clock = 0; tree = new_tree totals (record { mtu = mtu; txqueuelen = txqueuelen }) } }
    {
        Tree {
            mtu,
            txqueuelen,
            clock: Moment::zero(),
            top: Counters::none(),
            root: Node::fifo(alloc, None, Limit::Packets(u64::from(txqueuelen))),
            handles: Handles::new(alloc),
        }
    }

    /// Returns the latest time that the tree was given, and 0 before the first.
    pub fn clock(&self) -> Moment
        ensures { result ≡ self.now.clock }
    {
        self.clock
    }

    /// Returns the counters of the device itself, above the root, and what is queued in it now.
    pub fn totals(&self) -> Row
        ensures { result ≡ row_of self.now.tree.top.counts (beneath self.now.tree.root) }
    {
        self.top.row()
    }

    /// Returns the counters of the node in this place, and what is queued in it and below it now. Returns `None` if the place has no node.
    pub fn stats(&self, place: Place) -> Option<Row>
        ensures { result ≡ stats kept place self.now.tree }
    {
        match place {
            Place::Top => return Some(self.top.row()),
            Place::Root => return Some(self.root.row()),
            Place::Class(id) => return Some(self.qdiscs().find(id.major)?.class(id.minor)?.row()),
        }
    }

    /// Returns what `tc -s qdisc show` prints of the node with this index. Indexes count from 0 in the order of `tc qdisc show`: each node comes
    /// before those below it, and children come in the order of their classes. Returns `None` past the last node.
    pub fn node(&self, i: usize) -> Option<NodeView>
        ensures { result ≡ node kept i self.now.tree }
    {
        let Some((place, node)) = self.nth(i) else {
            return None;
        };
        Some(node.view(place))
    }

    /// Returns what `tc class show` prints of a class. `i` is the index of the node, as for [`Tree::node`], and `j` is the index of the class, in
    /// class order. Returns `None` past the last node or class. Only a qdisc with a handle has classes.
    pub fn class(&self, i: usize, j: usize) -> Option<ClassView>
        ensures { result ≡ class_of i j self.now.tree }
    {
        let Some((_, node)) = self.nth(i) else {
            return None;
        };
        node.class_view(j)
    }

    /// Returns what `tc filter show` prints of a filter. `i` is the index of the node, as for [`Tree::node`], and `j` is the index of the filter,
    /// in the order in which filters are tried. Returns `None` past the last node or filter. Only a qdisc with a handle has filters.
    pub fn filter(&self, i: usize, j: usize) -> Option<FilterView>
        ensures { result ≡ filter_of i j self.now.tree }
    {
        let Some((_, node)) = self.nth(i) else {
            return None;
        };
        node.filter_view(j)
    }

    // Its qdiscs, by their handles and places.
    pub(crate) fn qdiscs(&self) -> Qdiscs<'_>
        ensures { result.root.now ≡ self.now.tree.root }
    {
        Qdiscs {
            root: &self.root,
            handles: &self.handles,
        }
    }

    // What a command comes to, planned over the tree as it is.
    pub(crate) fn plan(
        &self,
        alloc: Global,
        command: &Command,
        now: Moment,
    ) -> Result<Planned, Refusal>
        requires order { self.now.clock ≤ now }
        ensures plan { IsPlanOf (WantsMemory command.now (plan_of command.now now self.now)) command.now now self.now.tree.device self.now.tree.root result }
        ensures lossless { IsLossless command.now → IfOk result (λ p. LosesNothing p.edit) }
    {
        // A time is at most 2^62 nanoseconds.
        let _ = now.ns();
        let planner = Planner {
            qdiscs: self.qdiscs(),
            mtu: self.mtu,
            txqueuelen: self.txqueuelen,
            alloc,
            moment: now,
        };
        planner.planned(command)
    }

    // Edits a node as a command has planned it.
    pub(crate) fn edit<S: Sink>(
        &mut self,
        planned: Planned,
        now: Moment,
        sink: &mut S,
    ) -> Result<(), Refusal>
        requires order { self.old.clock ≤ now }
        requires planned { IsPlanned planned.edit planned.path.items now self.old.tree.device self.old.tree.root }
        requires sink { length (removed_at planned.edit planned.path.items self.old.tree.root) ≤ (S.state sink.old).room }
        ensures after { OnOk result (self.new ≡ device_edited planned.edit planned.path.items now self.old) }
        ensures told { OnOk result (IsTold (purged (removed_at planned.edit planned.path.items self.old.tree.root)) (S.state sink.old) (S.state sink.new)) }
        ensures memory { IfErr result (λ why. (why ≡ refusal.Memory) × TakesMemory planned.edit) }
        ensures same { OnErr result (self.new ≡ self.old) }
        ensures not_lost { OnErr result (S.state sink.new ≡ S.state sink.old) }
        ensures kept { S.keeps sink.old sink.new }
    {
        // A time is at most 2^62 nanoseconds.
        let _ = now.ns();
        self.top.fit();
        let Planned { path, edit } = planned;
        let Ok(()) = self.handles.make_room_for(&edit) else {
            return Err(Refusal::Memory);
        };
        let Ok(lost) = self.root.edit(&path, edit, sink) else {
            return Err(Refusal::Memory);
        };
        book_dropped(&mut self.top, lost);
        self.clock = now;
        self.handles.renew(&self.root);
        Ok(())
    }

    // A node in the order of show, and where it is.
    pub(crate) fn nth(&self, i: usize) -> Option<(Place, &Node)>
        ensures found { option_map (λ x. (x.0, x.1.now)) result ≡ slice_get (standing place.Root self.now.tree.root) i }
        ensures numbered { IfSome result (λ x. IsNumbered x.1.now) }
    {
        // That the tree is lawful is known where it is looked into.
        let _ = &self.mtu;
        let mut left = i;
        self.root.nth(Place::Root, &mut left)
    }

    /// Finds the route of a packet: at each node the child that a filter, a band or a class names, at most eight in all. Allocates nothing.
    pub fn route(&self, packet: &Packet) -> Route
        ensures { result ≡ route_seen packet.now self.now.tree.device.mtu self.now.tree.root }
    {
        // A path has 80 bytes, so that it is made in its place.
        let mut route = Route {
            way: NodeRoute::new(),
            len: packet.len,
            is_too_long: packet.len > self.mtu,
        };
        if !route.is_too_long {
            self.root.go(&KeptPacket::of(packet), &mut route.way);
        }
        route
    }

    /// Makes a place for a packet with this route in the queue where the route ends. Of `route`, `prepare` and `put`, it alone allocates. For a
    /// packet that is refused it allocates nothing.
    ///
    /// # Errors
    ///
    /// Returns `AllocError` if an allocation fails, or if the packet would bring the count of what arrived at the device above 2^64 - 1, in packets
    /// or in bytes. The tree is as it was, except that queues may have more places; none has fewer.
    pub fn prepare(&mut self, route: &Route) -> Result<(), AllocError>
        requires { IsRouteIn route.now self.old }
        ensures same { numbers self.new ≡ numbers self.old }
        ensures routes { (p : Descriptor) → device_route p self.new.tree.device.mtu self.new.tree.root ≡ device_route p self.old.tree.device.mtu self.old.tree.root }
        ensures places { (path : List ℕ) → places_at path self.old.tree.root ≤ places_at path self.new.tree.root }
        ensures keeps { (other : RouteSeen) → CanArrive other self.old → CanArrive other self.new }
        ensures ok { OnOk result (CanArrive route.now self.new) }
        ensures succeeds { CanArrive route.now self.old → IsOk result }
    {
        let arrived = self.top.arrived();
        if arrived.packets == u64::MAX || arrived.bytes > u64::MAX - u64::from(route.len) {
            return Err(AllocError);
        }
        if route.is_too_long {
            return Ok(());
        }
        if route.way.refusal().is_some() {
            return Ok(());
        }
        self.root.prepare(route.way.places())
    }

    /// Puts a packet on its route, for which [`Tree::prepare`] has made a place, and returns what becomes of the packet. Allocates nothing.
    ///
    /// `now` is not before the latest time that the tree was given. What is lost because of the packet goes to `sink`, which needs room for all
    /// that is queued and one packet more.
    pub fn put<S: Sink>(&mut self, route: &Route, packet: Packet, now: Moment, sink: &mut S) -> Fate
        requires order { self.old.clock ≤ now }
        requires route { route.now ≡ route_seen packet self.old.tree.device.mtu self.old.tree.root }
        requires ready { CanArrive route.now self.old }
        requires sink { length (beneath self.old.tree.root) + 1 ≤ (S.state sink.old).room }
        ensures fate { result ≡ fate_of (own_loss now packet self.old.tree.device (shape self.old.tree.root)) }
        ensures after { self.new ≡ record { clock = now; tree = put kept now packet self.old.tree } }
        ensures lost { IsToldOf (noted_by_put now packet self.old.tree) (S.state sink.old) (S.state sink.new) }
        ensures kept { S.keeps sink.old sink.new }
    {
        // Only the contract speaks of the route: the walk finds it again.
        let _ = route;
        match self.arrive_counted(&KeptPacket::of(&packet), now, sink) {
            Ok(fate) => return fate,
            Err(_) => unreachable!(),
        }
    }

    /// Returns the packet whose turn it is, which a take at this time returns too, or `None` if none may go now. Allocates nothing.
    ///
    /// A tbf, a drr and an fq_codel dequeue the packet in order to show it, and hold it from then on. A held packet counts as queued at the node
    /// that holds it, and no longer below it. `now` is not before the latest time that the tree was given. What CoDel drops meanwhile goes to
    /// `sink`, which needs room for all that is queued.
    pub fn peek<S: Sink>(&mut self, now: Moment, sink: &mut S) -> Option<Packet>
        requires order { self.old.clock ≤ now }
        requires sink { length (beneath self.old.tree.root) ≤ (S.state sink.old).room }
        ensures packet { result ≡ given now self.old.tree }
        ensures after { self.new ≡ record { clock = now; tree = peek_packet kept now self.old.tree } }
        ensures lost { IsToldOf (noted_by_take now self.old.tree) (S.state sink.old) (S.state sink.new) }
        ensures kept { S.keeps sink.old sink.new }
    {
        // A time is at most 2^62 nanoseconds.
        let _ = now.ns();
        self.top.fit();
        let mut signals = NO_SIGNALS;
        let shown = self.root.peek(now, &mut signals, sink);
        book_shown(&mut self.top, &shown, &signals);
        self.clock = now;
        // The root has at hand what it has shown.
        as_packet(self.root.at_hand())
    }

    /// Takes the packet whose turn it is, and returns it, or `None` if none may go now. Allocates nothing.
    ///
    /// `now` is not before the latest time that the tree was given. What CoDel drops meanwhile goes to `sink`, which needs room for all that is
    /// queued.
    pub fn take<S: Sink>(&mut self, now: Moment, sink: &mut S) -> Option<Packet>
        requires order { self.old.clock ≤ now }
        requires sink { length (beneath self.old.tree.root) ≤ (S.state sink.old).room }
        ensures packet { result ≡ given now self.old.tree }
        ensures after { self.new ≡ record { clock = now; tree = take_packet kept now self.old.tree } }
        ensures lost { IsToldOf (noted_by_take now self.old.tree) (S.state sink.old) (S.state sink.new) }
        ensures kept { S.keeps sink.old sink.new }
    {
        let mut packet = SOME_KEPT;
        if !self.send(now, &mut packet, sink) {
            return None;
        }
        Some(packet.packet())
    }
}

// The packet, if there is one, in the form in which callers have it.
fn as_packet(packet: Option<KeptPacket>) -> Option<Packet>
    ensures { result ≡ packet }
{
    let packet = packet?;
    Some(packet.packet())
}

/// What became of a packet that was lost for this cause, or was not lost.
pub(crate) fn fate_of(loss: Option<Cause>) -> Fate
    ensures { result ≡ fate_of loss }
{
    match loss {
        None => return Fate::Kept,
        Some(cause) => return Fate::Lost(cause),
    }
}
