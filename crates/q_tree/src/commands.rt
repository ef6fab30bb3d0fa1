//! Commands on a tree: a command is planned, and then the edit that it comes to is made.
ghost use Rattle.std.specs.Prelude.{◌≡◌, ◌≤◌, IfOk, length};
ghost use Rattle.q_codel.specs.Losses.{IsTold};
ghost use Rattle.q_model.specs.Beneath.{beneath};
ghost use Rattle.q_model.specs.Node.{shape};
ghost use Rattle.q_tree.specs.commands.Commanding.{WantsMemory};
ghost use Rattle.q_tree.specs.commands.Commands.{IsAnswered, plan_of, told};
ghost use Rattle.q_tree.specs.commands.Editing.{LosesNothing};
ghost use Rattle.q_tree.specs.commands.Planning.{IsLawful, IsLossless, IsPlanBy, planned_by};

pub(crate) mod change;
pub(crate) mod class;
pub(crate) mod counting;
pub(crate) mod discipline_change;
pub(crate) mod edit;
pub(crate) mod filter;
pub(crate) mod handles;
pub(crate) mod named_qdisc;
pub(crate) mod new_qdisc;
pub(crate) mod one_loss_sink;
pub(crate) mod planned;
pub(crate) mod planner;
pub(crate) mod purge;
pub(crate) mod qdisc;
pub(crate) mod qdiscs;

use crate::commands::one_loss_sink::OneLossSink;
use crate::commands::planned::Planned;
use crate::commands::planner::Planner;
use crate::tree::Tree;
use q_codel::Sink;
use q_model::{Command, Refusal};
use q_packet::Moment;
use std::alloc::Global;

impl Tree {
    /// Carries out a command, which is what a line of tc asks for: as [`Tree::graft`], [`Tree::change`], [`Tree::prune`], [`Tree::class_add`] and
    /// the others do.
    ///
    /// `now` is not before the latest time that the tree was given. Each command that is carried out gives that time to the tree. Packets of what
    /// is removed are lost to `sink`, which needs room for all that is queued in the tree.
    ///
    /// # Errors
    ///
    /// Returns the first refusal that applies to the command. `Memory` is the last of them, and only for a command that takes memory. The tree is
    /// as it was.
    pub fn command<S: Sink>(
        &mut self,
        alloc: Global,
        command: Command,
        now: Moment,
        sink: &mut S,
    ) -> Result<(), Refusal>
        requires order { self.old.clock ≤ now }
        requires sink { length (beneath self.old.tree.root) ≤ (S.state sink.old).room }
        ensures answer { IsAnswered (WantsMemory command (plan_of command now self.old)) now (plan_of command now self.old) self.old self.new result }
        ensures lost { IsTold (told (plan_of command now self.old) (shape self.old.tree.root) result) (S.state sink.old) (S.state sink.new) }
        ensures kept { S.keeps sink.old sink.new }
    {
        let planned = self.plan(alloc, &command, now)?;
        self.edit(planned, now, sink)
    }

    // Does a command that loses nothing, at the latest time that the tree was given.
    fn lossless(&mut self, alloc: Global, command: Command) -> Result<(), Refusal>
        requires { IsLossless command }
        ensures { IsAnswered (WantsMemory command (plan_of command self.old.clock self.old)) self.old.clock (plan_of command self.old.clock self.old) self.old self.new result }
    {
        let now = self.clock();
        let planned = self.plan(alloc, &command, now)?;
        self.edit(planned, now, &mut OneLossSink { told: None })
    }
}

impl Planner<'_> {
    // The edit that a command asks for, or the first refusal that holds.
    pub(crate) fn planned(&self, command: &Command) -> Result<Planned, Refusal>
        requires lawful { IsLawful self.now }
        ensures plan { IsPlanBy self.now (WantsMemory command.now (planned_by self.now command.now)) command.now result }
        ensures lossless { IsLossless command.now → IfOk result (λ p. LosesNothing p.edit) }
    {
        // The numbers are in their ranges, which their types keep.
        command.ranges();
        match command {
            Command::QdiscAdd {
                place,
                handle,
                kind,
            } => return self.grafted(*place, *handle, kind),
            Command::QdiscChange {
                place,
                handle,
                kind,
            } => return self.changed(*place, *handle, kind),
            Command::QdiscDel { place, handle } => return self.pruned(*place, *handle),
            Command::ClassAdd {
                parent,
                class,
                quantum,
            } => return self.class_added(*parent, *class, *quantum),
            Command::ClassChange {
                parent,
                class,
                quantum,
            } => return self.class_changed(*parent, *class, *quantum),
            Command::ClassDel { parent, class } => return self.class_removed(*parent, *class),
            Command::FilterAdd {
                parent,
                major,
                filter,
            } => return self.filter_added(*parent, *major, *filter),
            Command::FilterDel { parent, prio } => return self.filters_removed(*parent, *prio),
        }
    }
}
