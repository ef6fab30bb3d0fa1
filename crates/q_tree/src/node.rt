ghost use Rattle.std.specs.Prelude.{◌≡◌, ◌≤◌, ◌+◌, None, length, option_copied, slice_get};
ghost use Rattle.q_model.specs.Beneath.{beneath, is_empty, totals_in};
ghost use Rattle.q_model.specs.Find.{depth};
ghost use Rattle.q_model.specs.Route.{route};
ghost use Rattle.q_tree.specs.route.Ahead.{ahead};

use crate::counters::Counters;
use crate::departure::held::Held;
use crate::filters::Filters;
use crate::route::choice::Choice;
use crate::route::node_route::NodeRoute;
use q_bucket::Bucket;
use q_codel::Fifo;
use q_drr::Active;
use q_fqcodel::FqCodel;
use q_model::{Handle, Totals};
use q_packet::KeptPacket;
use std::marker::Model;

/// A qdisc of the tree, with those below it.
///
/// A contract sees it as the model's node, which remembers what it counted, and how many packets its own queue has places
/// for. It keeps its counters: what is queued is what is below it, the row is balanced, marks are bounded, and no child has more
/// arrivals.
#[cycle(node)]
#[derive(Drop)]
pub(crate) struct Node {
    pub(crate) held: Held,
    pub(crate) row: Counters,
    pub(crate) filters: Filters,
    pub(crate) handle: Option<Handle>,
    pub(crate) discipline: Discipline,
}

// What a packet reads at each node of its path: a path of four nodes is 27 lines of a cache at most.
const _: () = prove!(size_of::<Node>() <= 432);

/// What a qdisc does, with its own queue and its children in class order.
#[cycle(node)]
#[derive(Drop)]
pub(crate) enum Discipline {
    Fifo(Fifo),
    Prio {
        priomap: [u8; 16],
        bands: Vec<Node>,
    },
    Tbf {
        bucket: Bucket,
        limit: u64,
        child: Box<Node>,
    },
    Drr {
        active: Active,
        classes: Vec<Node>,
    },
    /// Its queue is larger than the rest of a node, which is small for the sake of the nodes on a packet's path.
    FqCodel(Box<FqCodel>),
}

impl Model for Node {
    ghost use Rattle.q_model.specs.Node as spec;
    ghost use Rattle.q_tree.specs.Kept.{Kept};
    ghost use Rattle.q_tree.specs.NodeCode.{node_code, node_size};

    ghost Value = { spec.Node Kept };

    ghost coded = { node_code };

    ghost use Rattle.q_tree.specs.Seen.{seen, IsKept};

    ghost view = { seen };

    ghost invariant = { IsKept };

    ghost size = { node_size };

    ghost use Rattle.q_tree.specs.NodeFalls.{child_smaller};

    ghost size_decreases = { λ a h. child_smaller a };
}

impl Node {
    /// Whether nothing is queued at the node or below it.
    pub(crate) fn is_empty(&self) -> bool
        ensures { result ≡ is_empty self.now }
    {
        self.row.queued().packets == 0
    }

    /// What is queued at the node and below it.
    pub(crate) fn queued(&self) -> Totals
        ensures { result ≡ totals_in (beneath self.now) }
    {
        self.row.queued()
    }

    /// Goes on with the path of a packet, down from the node, from where it has come to.
    #[cycle(go)]
    pub(crate) fn go(&self, packet: &KeptPacket, way: &mut NodeRoute)
        requires room { length way.old.path + depth self.now ≤ 8 }
        requires open { way.old.refusal ≡ None }
        ensures { way.new ≡ ahead way.old.path (route packet.now self.now) }
    {
        match self.discipline.choose(&self.filters, packet) {
            Choice::Here => return,
            Choice::Refused(cause) => {
                way.refuse(cause);
                return;
            }
            Choice::Child(place) => {
                way.push(place);
                self.children()[place].go(packet, way);
                return;
            }
        }
    }
}

/// The child in this place.
pub(crate) fn child_at(children: &[Node], place: usize) -> Option<&Node>
    ensures { option_copied result ≡ slice_get children.now place }
{
    children.get(place)
}
