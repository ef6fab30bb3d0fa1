ghost use Rattle.std.specs.Prelude.{◌≡◌, ◌≤◌, Ok, OnErr, OnOk, length};
ghost use Rattle.q_codel.specs.Losses.{IsTold};
ghost use Rattle.q_model.specs.Beneath.{totals_in};
ghost use Rattle.q_tree.specs.commands.DisciplineChanges.{FitsCounters, IsChangedBy, IsUnchanged, TakesMore, adds_children, lost_with};
ghost use Rattle.q_tree.specs.commands.Purging.{purged};
ghost use Rattle.q_tree.specs.Seen.{children_seen, discipline_seen};

use crate::counters::booking::NOTHING;
use crate::node::{Discipline, Node};
use q_bucket::Bucket;
use q_codel::{Limit, Sink};
use q_model::{FqCodelOptions, Minor, PrioOptions, Quantum, Totals};
use std::alloc::AllocError;

/// What a command makes of a discipline and of its children. What is not for a discipline leaves it as it is.
#[derive(Drop)]
pub(crate) enum DisciplineChange {
    /// Everything stays.
    Nothing,
    /// A fifo has this limit.
    SetLimit(Limit),
    /// A prio has these options, and these leaves as its new bands.
    SetBands(PrioOptions, Vec<Node>),
    /// A tbf has this bucket, and it and its implicit leaf this limit in bytes.
    SetBucket(Bucket, u64),
    /// An fq_codel has these options, but as many flows as before.
    SetOptions(FqCodelOptions),
    /// A drr has a class more with this leaf, inactive; one that it has stays as it is.
    AddClass(Minor, Quantum, Node),
    /// A class of a drr has another quantum, where one is given.
    SetQuantum(Minor, Option<Quantum>),
    /// A drr has no such class.
    RemoveClass(Minor),
}

impl DisciplineChange {
    /// Whether it brings children.
    pub(crate) fn adds_children(&self) -> bool
        ensures { result ≡ adds_children self.now }
    {
        match self {
            DisciplineChange::SetBands(_, leaves) => return !leaves.is_empty(),
            DisciplineChange::AddClass(..) => return true,
            DisciplineChange::Nothing
            | DisciplineChange::SetLimit(_)
            | DisciplineChange::SetBucket(..) => return false,
            DisciplineChange::SetOptions(_)
            | DisciplineChange::SetQuantum(..)
            | DisciplineChange::RemoveClass(_) => return false,
        }
    }
}

impl Discipline {
    /// Changes the discipline, and says what was lost with the children that went.
    ///
    /// # Errors
    ///
    /// `AllocError` if an allocation fails; nothing has changed then.
    pub(crate) fn change<S: Sink>(
        &mut self,
        change: DisciplineChange,
        sink: &mut S,
    ) -> Result<Totals, AllocError>
        requires few { FitsCounters (lost_with change (discipline_seen self.old) (children_seen self.old)) }
        requires sink { length (lost_with change (discipline_seen self.old) (children_seen self.old)) ≤ (S.state sink.old).room }
        ensures after { OnOk result (IsChangedBy change self.old self.new) }
        ensures totals { OnOk result (result ≡ Ok (totals_in (lost_with change (discipline_seen self.old) (children_seen self.old)))) }
        ensures told { OnOk result (IsTold (purged (lost_with change (discipline_seen self.old) (children_seen self.old))) (S.state sink.old) (S.state sink.new)) }
        ensures memory { OnErr result (TakesMore change) }
        ensures same { OnErr result (IsUnchanged self.old self.new) }
        ensures not_lost { OnErr result (S.state sink.new ≡ S.state sink.old) }
        ensures kept { S.keeps sink.old sink.new }
    {
        match change {
            DisciplineChange::Nothing => (),
            DisciplineChange::SetLimit(limit) => self.set_limit(limit),
            DisciplineChange::SetBands(options, leaves) => return self.set_bands(
                options, leaves, sink,
            ),
            DisciplineChange::SetBucket(bucket, limit) => self.set_bucket(bucket, limit),
            DisciplineChange::SetOptions(options) => self.set_options(&options),
            DisciplineChange::AddClass(class, quantum, leaf) => self.add_class(
                class, quantum, leaf,
            )?,
            DisciplineChange::SetQuantum(class, quantum) => self.set_quantum(class, quantum),
            DisciplineChange::RemoveClass(class) => return Ok(self.remove_class(class, sink)),
        }
        Ok(NOTHING)
    }
}
