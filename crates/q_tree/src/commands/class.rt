ghost use Rattle.std.specs.Prelude.{◌≡◌, ◌<◌, ◌≤◌, ◌+◌, [], ◌==◌, IfOk, length, not, unwrap_or};
ghost use Rattle.std.specs.List.{list_any};
ghost use Rattle.q_codel.specs.Losses.{IsTold};
ghost use Rattle.q_model.specs.Beneath.{beneath};
ghost use Rattle.q_model.specs.ClassCommands.{class_change_checks, class_del_checks};
ghost use Rattle.q_model.specs.Filters.{names_class};
ghost use Rattle.q_model.specs.Node.{shape};
ghost use Rattle.q_model.specs.Ranges.{IsCommand};
ghost use Rattle.q_model.specs.Refusals.{is_so};
ghost use Rattle.q_model.specs.declared.command.Command.TheVariants.{ClassAdd, ClassChange, ClassDel};
ghost use Rattle.q_tree.specs.commands.Commands.{IsAnswered, class_add_sized, drr_answer, plan_of, takes_memory, takes_none, told};
ghost use Rattle.q_tree.specs.commands.Editing.{LosesNothing};
ghost use Rattle.q_tree.specs.commands.Planning.{IsLawful, IsPlanBy, root_of};

use crate::commands::counting::{MOST_LEVELS, MOST_NODES};
use crate::commands::discipline_change::DisciplineChange;
use crate::commands::edit::Edit;
use crate::commands::planned::Planned;
use crate::commands::planner::Planner;
use crate::filters::masked_filter::MaskedFilter;
use crate::node::{Discipline, Node};
use crate::tree::Tree;
use q_codel::Sink;
use q_model::{ClassId, Command, Handle, Minor, Quantum, Refusal};
use std::alloc::Global;

impl Tree {
    /// Adds a class to a drr, behind its other classes, with an implicit pfifo in it (`tc class add`, tc-drr(8)). If no quantum is given, the
    /// quantum is the mtu.
    ///
    /// # Errors
    ///
    /// Returns the first of these that applies: `NoParent` if `parent` is not the qdisc of the class; `NoQdisc` if there is no such qdisc;
    /// `NotClassful` if it has no classes; `CannotChange` if its classes come with it, as those of a prio do; `Exists` if it has the class already;
    /// `TooDeep` if the pfifo would be below the eighth level; `TooMany` if there would be more than 256 nodes, including implicit leaves; `Memory`
    /// if an allocation fails. The tree is as it was.
    pub fn class_add(
        &mut self,
        alloc: Global,
        parent: Handle,
        class: ClassId,
        quantum: Option<Quantum>,
    ) -> Result<(), Refusal>
        ensures { IsAnswered takes_memory self.old.clock (plan_of (ClassAdd parent class quantum) self.old.clock self.old) self.old self.new result }
    {
        let command = Command::ClassAdd {
            parent,
            class,
            quantum,
        };
        self.lossless(alloc, command)
    }

    /// Removes a class of a drr, with all that is below it (`tc class del`, tc-drr(8)). Allocates nothing.
    ///
    /// What is queued there is lost to `sink`, which needs room for all that is queued in the tree.
    ///
    /// # Errors
    ///
    /// Returns the first of these that applies: `NoParent` if `parent` is not the qdisc of the class; `NoQdisc` if there is no such qdisc;
    /// `NotClassful` if it has no classes; `CannotChange` if its classes come with it, as those of a prio do; `NoClass` if it lacks the class;
    /// `Busy` if one of its filters names the class. The tree is as it was.
    pub fn class_del<S: Sink>(
        &mut self,
        parent: Option<Handle>,
        class: ClassId,
        sink: &mut S,
    ) -> Result<(), Refusal>
        requires sink { length (beneath self.old.tree.root) ≤ (S.state sink.old).room }
        ensures answer { IsAnswered takes_none self.old.clock (plan_of (ClassDel parent class) self.old.clock self.old) self.old self.new result }
        ensures lost { IsTold (told (plan_of (ClassDel parent class) self.old.clock self.old) (shape self.old.tree.root) result) (S.state sink.old) (S.state sink.new) }
        ensures kept { S.keeps sink.old sink.new }
    {
        let command = Command::ClassDel { parent, class };
        let alloc = self.handles.allocator();
        self.command(alloc, command, self.clock, sink)
    }

    /// Gives a class of a drr another quantum, if one is given (`tc class change`, tc-drr(8)). If the deficit is above what the new quantum allows,
    /// it is cut to that.
    ///
    /// # Errors
    ///
    /// Returns the first of these that applies: `NoParent` if `parent` is not the qdisc of the class; `NoQdisc` if there is no such qdisc;
    /// `NotClassful` if it has no classes; `CannotChange` if its classes come with it, as those of a prio do; `NoClass` if it lacks the class. The
    /// tree is as it was.
    pub fn class_change(
        &mut self,
        parent: Option<Handle>,
        class: ClassId,
        quantum: Option<Quantum>,
    ) -> Result<(), Refusal>
        ensures { IsAnswered takes_none self.old.clock (plan_of (ClassChange parent class quantum) self.old.clock self.old) self.old self.new result }
    {
        let command = Command::ClassChange {
            parent,
            class,
            quantum,
        };
        let alloc = self.handles.allocator();
        self.lossless(alloc, command)
    }
}

impl Planner<'_> {
    // The edit that adds a class, or the first refusal that holds.
    pub(crate) fn class_added(
        &self,
        parent: Handle,
        class: ClassId,
        quantum: Option<Quantum>,
    ) -> Result<Planned, Refusal>
        requires ranges { IsCommand (ClassAdd parent class quantum) }
        ensures plan { IsPlanBy self.now takes_memory (ClassAdd parent class quantum) result }
        ensures quiet { IfOk result (λ p. LosesNothing p.edit) }
    {
        let parent = Some(parent);
        if names_another(&parent, &class) {
            return Err(Refusal::NoParent);
        }
        let Some((path, node)) = self.qdiscs.qdisc(class.major) else {
            return Err(Refusal::NoQdisc);
        };
        self.can_add_class(path.len(), node, &class)?;
        let quantum = self.quantum_or_mtu(&quantum);
        let leaf = self.implicit_pfifo();
        let edit = Edit::DisciplineChange(DisciplineChange::AddClass(class.minor, quantum, leaf));
        Ok(Planned { path, edit })
    }

    // The edit that removes a class, or the first refusal that holds.
    pub(crate) fn class_removed(
        &self,
        parent: Option<Handle>,
        class: ClassId,
    ) -> Result<Planned, Refusal>
        requires ranges { IsCommand (ClassDel parent class) }
        requires lawful { IsLawful self.now }
        ensures plan { IsPlanBy self.now takes_none (ClassDel parent class) result }
    {
        if names_another(&parent, &class) {
            return Err(Refusal::NoParent);
        }
        let Some((path, node)) = self.qdiscs.qdisc(class.major) else {
            return Err(Refusal::NoQdisc);
        };
        node.can_remove_class(&class)?;
        let edit = Edit::DisciplineChange(DisciplineChange::RemoveClass(class.minor));
        Ok(Planned { path, edit })
    }

    // The edit that gives a class another quantum, or the first refusal that holds.
    pub(crate) fn class_changed(
        &self,
        parent: Option<Handle>,
        class: ClassId,
        quantum: Option<Quantum>,
    ) -> Result<Planned, Refusal>
        requires ranges { IsCommand (ClassChange parent class quantum) }
        ensures plan { IsPlanBy self.now takes_none (ClassChange parent class quantum) result }
        ensures quiet { IfOk result (λ p. LosesNothing p.edit) }
    {
        if names_another(&parent, &class) {
            return Err(Refusal::NoParent);
        }
        let Some((path, node)) = self.qdiscs.qdisc(class.major) else {
            return Err(Refusal::NoQdisc);
        };
        node.can_change_class(&class)?;
        let edit = Edit::DisciplineChange(DisciplineChange::SetQuantum(class.minor, quantum));
        Ok(Planned { path, edit })
    }

    // Whether a class can be added to this node, to which so many steps lead.
    fn can_add_class(&self, steps: usize, node: &Node, class: &ClassId) -> Result<(), Refusal>
        requires short { steps < MOST_LEVELS }
        ensures { result ≡ drr_answer (class_add_sized class.now steps (shape node.now) (root_of self.now)) node.now.own.discipline }
    {
        node.has_own_classes()?;
        if node.class_place(class.minor).is_some() {
            return Err(Refusal::Exists);
        }
        if steps + 2 > MOST_LEVELS {
            return Err(Refusal::TooDeep);
        }
        if self.qdiscs.root.count_nodes() + 1 > MOST_NODES {
            return Err(Refusal::TooMany);
        }
        Ok(())
    }

    // The quantum that is given, or one of the mtu.
    fn quantum_or_mtu(&self, quantum: &Option<Quantum>) -> Quantum
        ensures { result ≡ unwrap_or quantum.now self.now.mtu }
    {
        if let Some(quantum) = quantum {
            return *quantum;
        }
        match Quantum::new(u32::from(self.mtu)) {
            Some(quantum) => quantum,
            None => unreachable!(),
        }
    }
}

impl Node {
    // Whether the qdisc has this class, and lets it be changed.
    fn can_change_class(&self, class: &ClassId) -> Result<(), Refusal>
        ensures { result ≡ drr_answer (class_change_checks class.now (shape self.now)) self.now.own.discipline }
    {
        self.has_own_classes()?;
        if self.class_place(class.minor).is_none() {
            return Err(Refusal::NoClass);
        }
        Ok(())
    }

    // Whether the qdisc has this class, and lets it be removed.
    fn can_remove_class(&self, class: &ClassId) -> Result<(), Refusal>
        ensures { result ≡ drr_answer (class_del_checks class.now (shape self.now)) self.now.own.discipline }
    {
        self.has_own_classes()?;
        if self.class_place(class.minor).is_none() {
            return Err(Refusal::NoClass);
        }
        if is_named(self.filters.all(), class.minor) {
            return Err(Refusal::Busy);
        }
        Ok(())
    }

    // Whether classes are added and removed one by one: those of a drr are.
    fn has_own_classes(&self) -> Result<(), Refusal>
        ensures { result ≡ drr_answer [] self.now.own.discipline }
    {
        match &self.discipline {
            Discipline::Drr { .. } => return Ok(()),
            Discipline::Prio { .. } | Discipline::Tbf { .. } => return Err(Refusal::CannotChange),
            Discipline::Fifo(_) | Discipline::FqCodel(_) => return Err(Refusal::NotClassful),
        }
    }
}

// Whether one of these filters names this class.
fn is_named(filters: &[MaskedFilter], class: Minor) -> bool
    ensures { result ≡ list_any (names_class class) filters.now }
{
    let class = class.number();
    filters
        .iter()
        .any(|filter| filter.filter().minor.number() == class)
}

// Whether a parent is given that is not the qdisc of this class.
fn names_another(parent: &Option<Handle>, class: &ClassId) -> bool
    ensures { result ≡ is_so (λ major. not (major == class.now.major)) parent.now }
{
    match parent {
        None => return false,
        Some(major) => return *major != class.major,
    }
}
