ghost use Rattle.std.specs.Prelude.{◌≡◌, IfOk};
ghost use Rattle.std.specs.List.{list_any};
ghost use Rattle.q_model.specs.FilterCommands.{filter_add_checks, filter_del_checks, has_prio};
ghost use Rattle.q_model.specs.Node.{shape};
ghost use Rattle.q_model.specs.Ranges.{IsCommand};
ghost use Rattle.q_model.specs.Refusals.{done_unless, has_filters};
ghost use Rattle.q_model.specs.declared.command.Command.TheVariants.{FilterAdd, FilterDel};
ghost use Rattle.q_tree.specs.commands.Commands.{IsAnswered, plan_of, takes_memory, takes_none};
ghost use Rattle.q_tree.specs.commands.Editing.{LosesNothing};
ghost use Rattle.q_tree.specs.commands.Planning.{IsPlanBy};

use crate::commands::edit::Edit;
use crate::commands::planned::Planned;
use crate::commands::planner::Planner;
use crate::filters::masked_filter::MaskedFilter;
use crate::node::{Discipline, Node};
use crate::tree::Tree;
use q_model::{Command, Filter, FilterPrio, Handle, Refusal};

/// The most filters that a qdisc has.
const MOST_FILTERS: usize = 256;

impl Tree {
    /// Adds a filter to the qdisc with the handle `parent`, behind its filters of the same priority (`tc filter add`, tc(8)). `major` is the major
    /// number of the class that the line names.
    ///
    /// # Errors
    ///
    /// Returns the first of these that applies: `NoQdisc` if no qdisc has the handle; `NotClassful` if the qdisc is neither a prio nor a drr;
    /// `NoClass` if it lacks the class; `TooMany` if it has 256 filters; `Memory` if an allocation fails. The tree is as it was.
    pub fn filter_add(
        &mut self,
        parent: Handle,
        major: Handle,
        filter: Filter,
    ) -> Result<(), Refusal>
        ensures { IsAnswered takes_memory self.old.clock (plan_of (FilterAdd parent major filter) self.old.clock self.old) self.old self.new result }
    {
        let command = Command::FilterAdd {
            parent,
            major,
            filter,
        };
        let alloc = self.handles.allocator();
        self.lossless(alloc, command)
    }

    /// Removes all filters of this priority from the qdisc with the handle `parent` (`tc filter del`, tc(8)).
    ///
    /// # Errors
    ///
    /// Returns the first of these that applies: `NoQdisc` if no qdisc has the handle; `NotClassful` if the qdisc is neither a prio nor a drr;
    /// `NoFilter` if no filter has the priority. The tree is as it was.
    pub fn filter_del(&mut self, parent: Handle, prio: FilterPrio) -> Result<(), Refusal>
        ensures { IsAnswered takes_none self.old.clock (plan_of (FilterDel parent prio) self.old.clock self.old) self.old self.new result }
    {
        let command = Command::FilterDel { parent, prio };
        let alloc = self.handles.allocator();
        self.lossless(alloc, command)
    }
}

impl Planner<'_> {
    // The edit that adds a filter, or the first refusal that holds.
    pub(crate) fn filter_added(
        &self,
        parent: Handle,
        major: Handle,
        filter: Filter,
    ) -> Result<Planned, Refusal>
        requires ranges { IsCommand (FilterAdd parent major filter) }
        ensures plan { IsPlanBy self.now takes_memory (FilterAdd parent major filter) result }
        ensures quiet { IfOk result (λ p. LosesNothing p.edit) }
    {
        let Some((path, node)) = self.qdiscs.qdisc(parent) else {
            return Err(Refusal::NoQdisc);
        };
        node.can_add_filter(parent, major, &filter)?;
        let edit = Edit::AddFilter(filter);
        Ok(Planned { path, edit })
    }

    // The edit that removes filters, or the first refusal that holds.
    pub(crate) fn filters_removed(
        &self,
        parent: Handle,
        prio: FilterPrio,
    ) -> Result<Planned, Refusal>
        requires ranges { IsCommand (FilterDel parent prio) }
        ensures plan { IsPlanBy self.now takes_none (FilterDel parent prio) result }
        ensures quiet { IfOk result (λ p. LosesNothing p.edit) }
    {
        let Some((path, node)) = self.qdiscs.qdisc(parent) else {
            return Err(Refusal::NoQdisc);
        };
        node.can_remove_filters(prio)?;
        let edit = Edit::RemoveFilters(prio);
        Ok(Planned { path, edit })
    }
}

impl Node {
    // Whether the qdisc takes a filter into this class.
    fn can_add_filter(&self, parent: Handle, major: Handle, filter: &Filter) -> Result<(), Refusal>
        ensures { result ≡ done_unless (filter_add_checks parent major filter.now (shape self.now)) (record {}) }
    {
        if !self.has_filters() {
            return Err(Refusal::NotClassful);
        }
        if major != parent {
            return Err(Refusal::NoClass);
        }
        if self.class_place(filter.minor).is_none() {
            return Err(Refusal::NoClass);
        }
        if self.filters.all().len() >= MOST_FILTERS {
            return Err(Refusal::TooMany);
        }
        Ok(())
    }

    // Whether it has filters of this priority.
    fn can_remove_filters(&self, prio: FilterPrio) -> Result<(), Refusal>
        ensures { result ≡ done_unless (filter_del_checks prio (shape self.now)) (record {}) }
    {
        if !self.has_filters() {
            return Err(Refusal::NotClassful);
        }
        if !has_prio(self.filters.all(), prio) {
            return Err(Refusal::NoFilter);
        }
        Ok(())
    }

    // Filters choose among the classes of a prio and of a drr.
    fn has_filters(&self) -> bool
        ensures { result ≡ has_filters self.now.own.discipline }
    {
        match &self.discipline {
            Discipline::Prio { .. } | Discipline::Drr { .. } => return true,
            Discipline::Fifo(_) | Discipline::Tbf { .. } | Discipline::FqCodel(_) => return false,
        }
    }
}

// Whether one of these filters has this priority.
fn has_prio(filters: &[MaskedFilter], prio: FilterPrio) -> bool
    ensures { result ≡ list_any (has_prio prio) filters.now }
{
    let prio = prio.number();
    filters
        .iter()
        .any(|filter| filter.filter().prio.number() == prio)
}
