ghost use Rattle.std.specs.Prelude.{◌≡◌, ◌≤◌, ◌+◌, [], IsSome, length, unwrap_or};
ghost use Rattle.std.specs.Result.{result_map_both};
ghost use Rattle.q_codel.specs.Losses.{IsTold};
ghost use Rattle.q_model.specs.Beneath.{beneath};
ghost use Rattle.q_model.specs.Find.{free_handle, has_handle, node_at, place_path};
ghost use Rattle.q_model.specs.Make.{implicit_beneath};
ghost use Rattle.q_model.specs.Node.{shape};
ghost use Rattle.q_model.specs.QdiscCommands.{leaf_at, place_checks};
ghost use Rattle.q_model.specs.Ranges.{IsCommand};
ghost use Rattle.q_model.specs.Refusals.{done_unless, is_classless, is_so, most_nodes};
ghost use Rattle.q_model.specs.declared.command.Command.TheVariants.{QdiscAdd, QdiscDel};
ghost use Rattle.q_tree.specs.commands.Commands.{IsAnswered, plan_of, takes_none, told};
ghost use Rattle.q_tree.specs.commands.Grafting.{graft_checks, nodes_at};
ghost use Rattle.q_tree.specs.commands.Making.{IsNewNode, NeedsMemory};
ghost use Rattle.q_tree.specs.commands.Planning.{IsLawful, IsPlanBy, device_of, root_of};

use crate::answers::find::Path;
use crate::commands::counting::{MOST_LEVELS, MOST_NODES, levels_made, nodes_made};
use crate::commands::edit::Edit;
use crate::commands::planned::Planned;
use crate::commands::planner::Planner;
use crate::node::{Discipline, Node};
use crate::tree::Tree;
use q_codel::{Limit, Sink};
use q_model::{Command, Handle, Kind, Place, Refusal};
use q_packet::Moment;
use std::alloc::Global;

impl Tree {
    /// Puts a new qdisc into a place, instead of the implicit leaf there (`tc qdisc add`, tc(8)). If no handle is given, the qdisc gets the least
    /// major number from 8001 (hexadecimal) on that no qdisc has.
    ///
    /// `now` is not before the latest time that the tree was given. What is queued in the leaf is lost to `sink`, which needs room for all that is
    /// queued in the tree.
    ///
    /// # Errors
    ///
    /// Returns the first of these that applies: `Exists` if the place is the device itself; `NoParent` if there is no qdisc with the major number
    /// of the class; `NotClassful` if that qdisc has no classes; `NoClass` if it lacks the class; `Exists` if a qdisc with a handle is in the
    /// place; `HandleTaken` if another qdisc has the handle; `TooDeep` if there would be more than 8 levels; `TooMany` if there would be more than
    /// 256 nodes, including implicit leaves; `Memory` if an allocation fails, for a prio, a tbf or an fq_codel. The tree is as it was.
    pub fn graft<S: Sink>(
        &mut self,
        alloc: Global,
        place: Place,
        handle: Option<Handle>,
        kind: Kind,
        now: Moment,
        sink: &mut S,
    ) -> Result<(), Refusal>
        requires order { self.old.clock ≤ now }
        requires sink { length (beneath self.old.tree.root) ≤ (S.state sink.old).room }
        ensures answer { IsAnswered (NeedsMemory kind) now (plan_of (QdiscAdd place handle kind) now self.old) self.old self.new result }
        ensures lost { IsTold (told (plan_of (QdiscAdd place handle kind) now self.old) (shape self.old.tree.root) result) (S.state sink.old) (S.state sink.new) }
        ensures kept { S.keeps sink.old sink.new }
    {
        let command = Command::QdiscAdd {
            place,
            handle,
            kind,
        };
        self.command(alloc, command, now, sink)
    }

    /// Removes a qdisc with all that is below it (`tc qdisc del`, tc(8)). Its place gets back the implicit leaf, which is empty. Allocates nothing.
    ///
    /// The qdisc is named by its place, by its handle, or by both, which then name the same qdisc. What is queued there is lost to `sink`, which
    /// needs room for all that is queued in the tree.
    ///
    /// # Errors
    ///
    /// Returns `NoQdisc` if no qdisc is named so. The tree is as it was.
    pub fn prune<S: Sink>(
        &mut self,
        alloc: Global,
        place: Option<Place>,
        handle: Option<Handle>,
        sink: &mut S,
    ) -> Result<(), Refusal>
        requires sink { length (beneath self.old.tree.root) ≤ (S.state sink.old).room }
        ensures answer { IsAnswered takes_none self.old.clock (plan_of (QdiscDel place handle) self.old.clock self.old) self.old self.new result }
        ensures lost { IsTold (told (plan_of (QdiscDel place handle) self.old.clock self.old) (shape self.old.tree.root) result) (S.state sink.old) (S.state sink.new) }
        ensures kept { S.keeps sink.old sink.new }
    {
        self.command(alloc, Command::QdiscDel { place, handle }, self.clock, sink)
    }
}

impl Planner<'_> {
    // The edit that puts a new qdisc into a place, or the first refusal that holds.
    pub(crate) fn grafted(
        &self,
        place: Place,
        handle: Option<Handle>,
        kind: &Kind,
    ) -> Result<Planned, Refusal>
        requires ranges { IsCommand (QdiscAdd place handle kind.now) }
        requires lawful { IsLawful self.now }
        ensures plan { IsPlanBy self.now (NeedsMemory kind.now) (QdiscAdd place handle kind.now) result }
    {
        let path = self.way_in(place)?;
        self.can_graft(&path, &handle, kind)?;
        let handle = self.handle_or_free(&handle);
        let Ok(node) = self.made(handle, kind) else {
            return Err(Refusal::Memory);
        };
        let edit = Edit::Graft(node);
        Ok(Planned { path, edit })
    }

    // The edit that removes a qdisc, or the refusal where there is none.
    pub(crate) fn pruned(
        &self,
        place: Option<Place>,
        handle: Option<Handle>,
    ) -> Result<Planned, Refusal>
        requires ranges { IsCommand (QdiscDel place handle) }
        ensures plan { IsPlanBy self.now takes_none (QdiscDel place handle) result }
    {
        let Some((path, _)) = self.qdiscs.target(place, handle) else {
            return Err(Refusal::NoQdisc);
        };
        let leaf = self.leaf_at(&path);
        let edit = Edit::Graft(leaf);
        Ok(Planned { path, edit })
    }

    // The path to a place for a new qdisc, or why there is none.
    fn way_in(&self, place: Place) -> Result<Path, Refusal>
        ensures { result_map_both (λ p. p.items) (λ e. e) result ≡ done_unless (place_checks place (shape (root_of self.now))) (unwrap_or (place_path place (shape (root_of self.now))) []) }
    {
        let class = match place {
            Place::Top => return Err(Refusal::Exists),
            Place::Root => return Ok(Path::new()),
            Place::Class(class) => class,
        };
        let Some((path, parent)) = self.qdiscs.qdisc(class.major) else {
            return Err(Refusal::NoParent);
        };
        if parent.is_classless() {
            return Err(Refusal::NotClassful);
        }
        let Some(child) = parent.class_place(class.minor) else {
            return Err(Refusal::NoClass);
        };
        let mut path = path;
        path.push(child);
        Ok(path)
    }

    // Whether a new qdisc may be at the end of this path.
    fn can_graft(&self, path: &[usize], handle: &Option<Handle>, kind: &Kind) -> Result<(), Refusal>
        requires there { IsSome (node_at path.now (root_of self.now)) }
        ensures { result ≡ done_unless (graft_checks handle.now kind.now path.now (root_of self.now)) (record {}) }
    {
        if self.qdiscs.is_explicit(path) {
            return Err(Refusal::Exists);
        }
        if self.is_taken(handle) {
            return Err(Refusal::HandleTaken);
        }
        if path.len() + levels_made(kind) > MOST_LEVELS {
            return Err(Refusal::TooDeep);
        }
        if self.qdiscs.root.count_nodes() + nodes_made(kind) > MOST_NODES + self.nodes_at(path) {
            return Err(Refusal::TooMany);
        }
        Ok(())
    }

    // How many nodes are at the end of this path and below.
    fn nodes_at(&self, path: &[usize]) -> usize
        ensures value { result ≡ nodes_at path.now (root_of self.now) }
        ensures few { result ≤ most_nodes }
    {
        let Some(node) = self.qdiscs.root.at(path) else {
            return 0;
        };
        node.count_nodes()
    }

    // Whether a handle is given that a qdisc has.
    fn is_taken(&self, handle: &Option<Handle>) -> bool
        ensures { result ≡ is_so (λ h. has_handle h (root_of self.now)) handle.now }
    {
        match handle {
            None => return false,
            Some(handle) => return self.qdiscs.handles.has(*handle),
        }
    }

    // The handle that is given, or the least free one.
    fn handle_or_free(&self, handle: &Option<Handle>) -> Handle
        ensures { result ≡ unwrap_or handle.now (free_handle (root_of self.now)) }
    {
        match handle {
            None => return self.qdiscs.handles.least_free(),
            Some(handle) => return *handle,
        }
    }

    // The implicit leaf of the place where this path ends: below a tbf a bfifo of its limit.
    fn leaf_at(&self, path: &[usize]) -> Node
        ensures { IsNewNode result (leaf_at (device_of self.now) path.now (shape (root_of self.now))) }
    {
        let Some((_, way)) = path.split_last() else {
            return self.implicit_pfifo();
        };
        let Some(parent) = self.qdiscs.root.at(way) else {
            return self.implicit_pfifo();
        };
        self.implicit_beneath(parent)
    }

    // The leaf that is in a class of this qdisc where nothing else is.
    fn implicit_beneath(&self, parent: &Node) -> Node
        ensures { IsNewNode result (implicit_beneath (device_of self.now) parent.now.own.discipline) }
    {
        match &parent.discipline {
            Discipline::Tbf { limit, .. } => {
                return Node::fifo(self.alloc, None, Limit::Bytes(*limit));
            }
            Discipline::Prio { .. } | Discipline::Drr { .. } => return self.implicit_pfifo(),
            Discipline::Fifo(_) | Discipline::FqCodel(_) => return self.implicit_pfifo(),
        }
    }
}

impl Node {
    // pfifo, bfifo and fq_codel have no classes.
    fn is_classless(&self) -> bool
        ensures { result ≡ is_classless self.now.own.discipline }
    {
        match &self.discipline {
            Discipline::Fifo(_) | Discipline::FqCodel(_) => return true,
            Discipline::Prio { .. } | Discipline::Tbf { .. } | Discipline::Drr { .. } =>
                return false,
        }
    }
}
