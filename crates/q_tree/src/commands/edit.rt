ghost use Rattle.std.specs.Prelude.{◌≡◌, ◌≤◌, IsSome, Ok, OnErr, OnOk, Some, length, slice_get};
ghost use Rattle.q_codel.specs.Losses.{IsTold};
ghost use Rattle.q_model.specs.Beneath.{totals_in};
ghost use Rattle.q_model.specs.Find.{node_at};
ghost use Rattle.q_model.specs.Node as spec;
ghost use Rattle.q_tree.specs.arrival.Places.{Leads};
ghost use Rattle.q_tree.specs.commands.DisciplineChanges.{IsUnchanged};
ghost use Rattle.q_tree.specs.commands.Editing.{IsEditedBeneath, IsReady, TakesMemory, adds_nodes, edited_by, effect, removed, removed_at};
ghost use Rattle.q_tree.specs.commands.Purging.{purged};
ghost use Rattle.q_tree.specs.Kept.{Kept};
ghost use Rattle.q_tree.specs.Seen.{children_seen};

use crate::commands::discipline_change::DisciplineChange;
use crate::counters::booking::{NOTHING, book_dropped};
use crate::disciplines::drr::settle;
use crate::node::{Discipline, Node};
use q_codel::Sink;
use q_model::{Filter, FilterPrio, Totals};
use std::alloc::AllocError;

/// What a command makes of the node at the end of its path.
#[derive(Drop)]
pub(crate) enum Edit {
    /// This new node takes its place.
    Graft(Node),
    /// It has a filter more, behind those of the same priority.
    AddFilter(Filter),
    /// It has no filters of this priority.
    RemoveFilters(FilterPrio),
    /// Its discipline and its children are changed.
    DisciplineChange(DisciplineChange),
}

impl Edit {
    /// Whether it brings nodes below another.
    pub(crate) fn adds_nodes(&self) -> bool
        ensures { result ≡ adds_nodes self.now }
    {
        match self {
            Edit::Graft(node) => return !node.children().is_empty(),
            Edit::AddFilter(_) | Edit::RemoveFilters(_) => return false,
            Edit::DisciplineChange(change) => return change.adds_children(),
        }
    }
}

impl Node {
    /// Edits the node at the end of this path, and says what was lost there, which each node on the path books as dropped.
    ///
    /// # Errors
    ///
    /// `AllocError` if an allocation fails; nothing has changed then.
    #[cycle(edit)]
    pub(crate) fn edit<S: Sink>(
        &mut self,
        path: &[usize],
        edit: Edit,
        sink: &mut S,
    ) -> Result<Totals, AllocError>
        requires there { IsSome (node_at path.now self.old) }
        requires ready { IsReady edit }
        requires sink { length (removed_at edit path.now self.old) ≤ (S.state sink.old).room }
        ensures after { OnOk result (self.new ≡ edited_by edit path.now self.old) }
        ensures totals { OnOk result (result ≡ Ok (totals_in (removed_at edit path.now self.old))) }
        ensures told { OnOk result (IsTold (purged (removed_at edit path.now self.old)) (S.state sink.old) (S.state sink.new)) }
        ensures memory { OnErr result (TakesMemory edit) }
        ensures same { OnErr result (self.new ≡ self.old) }
        ensures not_lost { OnErr result (S.state sink.new ≡ S.state sink.old) }
        ensures kept { S.keeps sink.old sink.new }
    {
        let Some((&place, rest)) = path.split_first() else {
            return self.apply(edit, sink);
        };
        self.row.fit();
        let lost = self.discipline.edit_beneath(place, rest, edit, sink)?;
        book_dropped(&mut self.row, lost);
        Ok(lost)
    }

    // Edits this node.
    fn apply<S: Sink>(&mut self, edit: Edit, sink: &mut S) -> Result<Totals, AllocError>
        requires ready { IsReady edit }
        requires sink { length (removed edit self.old) ≤ (S.state sink.old).room }
        ensures after { OnOk result (self.new ≡ effect edit self.old) }
        ensures totals { OnOk result (result ≡ Ok (totals_in (removed edit self.old))) }
        ensures told { OnOk result (IsTold (purged (removed edit self.old)) (S.state sink.old) (S.state sink.new)) }
        ensures memory { OnErr result (TakesMemory edit) }
        ensures same { OnErr result (self.new ≡ self.old) }
        ensures not_lost { OnErr result (S.state sink.new ≡ S.state sink.old) }
        ensures kept { S.keeps sink.old sink.new }
    {
        match edit {
            Edit::Graft(node) => {
                let old = std::mem::replace(self, node);
                let lost = old.queued();
                old.purge(sink);
                return Ok(lost);
            }
            Edit::AddFilter(filter) => {
                self.filters.add(filter)?;
                return Ok(NOTHING);
            }
            Edit::RemoveFilters(prio) => {
                self.filters.remove(prio);
                return Ok(NOTHING);
            }
            Edit::DisciplineChange(change) => {
                self.row.fit();
                let lost = self.discipline.change(change, sink)?;
                book_dropped(&mut self.row, lost);
                return Ok(lost);
            }
        }
    }
}

impl Discipline {
    // Edits the node at the end of the path that goes on below the child in this place.
    #[cycle(edit)]
    fn edit_beneath<S: Sink>(
        &mut self,
        place: usize,
        rest: &[usize],
        edit: Edit,
        sink: &mut S,
    ) -> Result<Totals, AllocError>
        requires there { Leads rest.now place (children_seen self.old) }
        requires ready { IsReady edit }
        requires sink { (c : spec.Node Kept) → slice_get (children_seen self.old) place ≡ Some c → length (removed_at edit rest.now c) ≤ (S.state sink.old).room }
        ensures after { OnOk result ((c : spec.Node Kept) → slice_get (children_seen self.old) place ≡ Some c → IsEditedBeneath edit rest.now place c self.old self.new) }
        ensures totals { OnOk result ((c : spec.Node Kept) → slice_get (children_seen self.old) place ≡ Some c → result ≡ Ok (totals_in (removed_at edit rest.now c))) }
        ensures told { OnOk result ((c : spec.Node Kept) → slice_get (children_seen self.old) place ≡ Some c → IsTold (purged (removed_at edit rest.now c)) (S.state sink.old) (S.state sink.new)) }
        ensures memory { OnErr result (TakesMemory edit) }
        ensures same { OnErr result (IsUnchanged self.old self.new) }
        ensures not_lost { OnErr result (S.state sink.new ≡ S.state sink.old) }
        ensures kept { S.keeps sink.old sink.new }
    {
        match self {
            Discipline::Prio { bands, .. } => return bands[place].edit(rest, edit, sink),
            Discipline::Tbf { child, .. } => return child.edit(rest, edit, sink),
            Discipline::Drr { active, classes } => {
                let lost = classes[place].edit(rest, edit, sink)?;
                settle(active, place, classes[place].is_empty());
                return Ok(lost);
            }
            Discipline::Fifo(_) | Discipline::FqCodel(_) => unreachable!(),
        }
    }
}
