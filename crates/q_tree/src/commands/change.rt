ghost use Rattle.std.specs.Prelude.{◌≡◌, ◌≤◌, length};
ghost use Rattle.q_codel.specs.Losses.{IsTold};
ghost use Rattle.q_invariants.specs.Kept.{IsLawfulRoot};
ghost use Rattle.q_invariants.specs.Sizes.{change_sized};
ghost use Rattle.q_model.specs.Beneath.{beneath};
ghost use Rattle.q_model.specs.Find.{count_nodes};
ghost use Rattle.q_model.specs.Node.{shape};
ghost use Rattle.q_model.specs.Ranges.{IsCommand};
ghost use Rattle.q_model.specs.declared.command.Command.TheVariants.{QdiscChange};
ghost use Rattle.q_model.specs.declared.kind.Kind.TheVariants as kind;
ghost use Rattle.q_tree.specs.commands.Changing.{IsChange, NeedsMore};
ghost use Rattle.q_tree.specs.commands.Commands.{IsAnswered, plan_of, told};
ghost use Rattle.q_tree.specs.commands.Planning.{IsLawful, IsPlanBy, device_of, planned_by, root_of};

use crate::commands::discipline_change::DisciplineChange;
use crate::commands::edit::Edit;
use crate::commands::planned::Planned;
use crate::commands::planner::Planner;
use crate::node::Node;
use crate::tree::Tree;
use q_codel::Sink;
use q_model::{Command, Handle, Kind, Place, Refusal};
use q_packet::Moment;
use std::alloc::Global;

impl Tree {
    /// Gives a qdisc other settings of its kind (`tc qdisc change`, tc(8)). Settings that are not given stay as they are.
    ///
    /// The qdisc is named by its place, by its handle, or by both, which then name the same qdisc. `now` is not before the latest time that the
    /// tree was given.
    ///
    /// A smaller limit drops no packet. A token bucket first fills at its old rate up to `now`. If a prio gets more bands, the new ones are
    /// implicit pfifos. If it gets fewer, the last ones go, and what is queued there is lost to `sink`, which needs room for all that is queued in
    /// the tree.
    ///
    /// # Errors
    ///
    /// Returns `NoQdisc` if no qdisc is named so; `CannotChange` if it is of another kind, or if an fq_codel would have another number of flows;
    /// `SmallBurst` if the burst of a tbf would be below both its present burst and the mtu. For a prio, returns the first of these that applies:
    /// `Busy` if a filter names a band that would go; `TooMany` if there would be more than 256 nodes, including implicit leaves; `Memory` if the
    /// prio gets more bands and an allocation fails. The tree is as it was.
    pub fn change<S: Sink>(
        &mut self,
        alloc: Global,
        place: Option<Place>,
        handle: Option<Handle>,
        kind: Kind,
        now: Moment,
        sink: &mut S,
    ) -> Result<(), Refusal>
        requires order { self.old.clock ≤ now }
        requires sink { length (beneath self.old.tree.root) ≤ (S.state sink.old).room }
        ensures answer { IsAnswered (NeedsMore kind (plan_of (QdiscChange place handle kind) now self.old)) now (plan_of (QdiscChange place handle kind) now self.old) self.old self.new result }
        ensures lost { IsTold (told (plan_of (QdiscChange place handle kind) now self.old) (shape self.old.tree.root) result) (S.state sink.old) (S.state sink.new) }
        ensures kept { S.keeps sink.old sink.new }
    {
        let command = Command::QdiscChange {
            place,
            handle,
            kind,
        };
        self.command(alloc, command, now, sink)
    }
}

impl Planner<'_> {
    // The edit that gives a qdisc other settings, or the first refusal that holds.
    pub(crate) fn changed(
        &self,
        place: Option<Place>,
        handle: Option<Handle>,
        kind: &Kind,
    ) -> Result<Planned, Refusal>
        requires ranges { IsCommand (QdiscChange place handle kind.now) }
        requires lawful { IsLawful self.now }
        ensures plan { IsPlanBy self.now (NeedsMore kind.now (planned_by self.now (QdiscChange place handle kind.now))) (QdiscChange place handle kind.now) result }
    {
        let Some((path, node)) = self.qdiscs.target(place, handle) else {
            return Err(Refusal::NoQdisc);
        };
        let change = self.change_to(node, kind)?;
        let edit = Edit::DisciplineChange(change);
        Ok(Planned { path, edit })
    }

    // What a change to these settings makes of a qdisc, or the first refusal that holds.
    fn change_to(&self, node: &Node, kind: &Kind) -> Result<DisciplineChange, Refusal>
        requires within { count_nodes node.now ≤ count_nodes (root_of self.now) }
        requires lawful { IsLawfulRoot self.now.mtu self.now.moment (shape node.now) }
        ensures { IsChange (NeedsMore kind.now) (λ path. change_sized (device_of self.now) self.now.moment (shape (root_of self.now)) (shape node.now) path node.now.own.discipline kind.now) node.now result }
    {
        match kind {
            Kind::Pfifo { limit } => return node.packet_limit(*limit),
            Kind::Bfifo { limit } => return node.byte_limit(*limit),
            Kind::Prio(options) => return self.bands(node, options),
            Kind::Tbf { rate, burst, limit } => return self.bucket(node, *rate, *burst, *limit),
            Kind::Drr => return node.same_drr(),
            Kind::FqCodel(options) => return node.options(options),
        }
    }
}
