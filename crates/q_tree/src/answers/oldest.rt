ghost use Rattle.std.specs.Prelude.{◌≡◌, map};
ghost use Rattle.q_model.specs.Oldest.{oldest, oldest_at};
ghost use Rattle.q_tree.specs.answers.Oldest.{AreAllInOrder, IsInOrder, IsInOrderIn, oldest_of, oldest_within};

use crate::answers::ready_at::sooner;
use crate::disciplines::fifo::first_arrival;
use crate::node::{Discipline, Node};
use crate::tree::Tree;
use q_model::Place;
use q_packet::Moment;

impl Tree {
    /// Tells since when the oldest packet that is queued at the node in this place, or below it, has been there: no other packet there has waited
    /// longer. Returns `None` if nothing is queued there, or if the place has no node.
    ///
    /// The time is found when it is asked for: the call looks once at each node, and at each flow of an fq_codel. All that is kept for it on a
    /// packet's path is when a held packet arrived.
    pub fn oldest(&self, place: Place) -> Option<Moment>
        ensures { result ≡ oldest_at place self.now.tree }
    {
        // That the tree is lawful is known where it is looked into.
        let _ = &self.mtu;
        match place {
            Place::Top | Place::Root => return self.root.oldest(),
            Place::Class(id) => return self.qdiscs().find(id.major)?.class(id.minor)?.oldest(),
        }
    }
}

impl Node {
    /// When the packet arrived that has been queued longest at the node or below it.
    #[cycle(oldest)]
    pub(crate) fn oldest(&self) -> Option<Moment>
        requires { IsInOrder self.now }
        ensures { result ≡ oldest self.now }
    {
        sooner(self.held.arrival(), self.discipline.oldest())
    }
}

impl Discipline {
    // The same of its own queues and of its children. The first packet of a queue arrived first.
    #[cycle(oldest)]
    fn oldest(&self) -> Option<Moment>
        requires { IsInOrderIn self.now }
        ensures { result ≡ oldest_within self.now }
    {
        match self {
            Discipline::Fifo(fifo) => return first_arrival(fifo),
            Discipline::Prio { bands, .. } => return oldest_of(bands),
            Discipline::Tbf { child, .. } => return child.oldest(),
            Discipline::Drr { classes, .. } => return oldest_of(classes),
            Discipline::FqCodel(queue) => return queue.oldest(),
        }
    }
}

// The same of nodes side by side.
#[cycle(oldest)]
fn oldest_of(nodes: &[Node]) -> Option<Moment>
    requires { AreAllInOrder nodes.now }
    ensures { result ≡ oldest_of (map oldest nodes.now) }
{
    let mut first = None;
    for node in nodes {
        first = sooner(first, node.oldest());
    }
    first
}
