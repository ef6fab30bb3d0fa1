//! Where a packet that arrives at a node goes. Each discipline decides it in its own file, for an arrival and for the route of a packet.
ghost use Rattle.std.specs.Prelude.{◌≡◌, ◌<◌, length, ℕ};
ghost use Rattle.q_tree.specs.arrival.ArriveSteps.{way_in};
ghost use Rattle.q_tree.specs.route.Ahead.{ways};
ghost use Rattle.q_tree.specs.route.Choosing.{along, child_of};
ghost use Rattle.q_tree.specs.Seen.{children_seen};
ghost use Rattle.q_tree.specs.declared.route.choice.Choice.TheVariants.{Child};

use crate::disciplines::{drr, fifo, prio, tbf};
use crate::filters::Filters;
use crate::node::Discipline;
use q_packet::{Cause, KeptPacket};

/// Where a packet that arrives at a node goes.
#[derive(Clone, Copy)]
pub(crate) enum Choice {
    /// Into the node's own queue.
    Here,
    /// To the child in this place.
    Child(usize),
    /// Nowhere: it is refused for this cause.
    Refused(Cause),
}

impl Discipline {
    /// Where a packet goes that arrives at a node with this discipline and these filters.
    #[inline(always)]
    pub(crate) fn choose(&self, filters: &Filters, packet: &KeptPacket) -> Choice
        ensures goes { along (ways packet.now (children_seen self.now)) result ≡ way_in packet.now filters.now self.now }
        ensures there { (i : ℕ) → result ≡ Child i → i < length (children_seen self.now) }
    {
        match self {
            Discipline::Prio { priomap, bands } => {
                return prio::choose(filters, priomap, bands.len(), packet);
            }
            Discipline::Tbf { bucket, .. } => return tbf::choose(bucket, packet),
            Discipline::Drr { active, classes } => {
                return drr::choose(active, filters, classes.len(), packet);
            }
            Discipline::FqCodel(_) => return Choice::Here,
            Discipline::Fifo(fifo) => return fifo::choose(fifo, packet),
        }
    }
}

/// The child in this place, of so many: a packet for which there is none is refused (tc-prio(8), tc-drr(8)).
#[inline(always)]
pub(crate) fn child_of(count: usize, place: usize) -> Choice
    ensures { result ≡ child_of count place }
{
    if place >= count {
        return Choice::Refused(Cause::NoClass);
    }
    Choice::Child(place)
}
