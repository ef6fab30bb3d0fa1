ghost use Rattle.std.specs.Prelude.{◌≡◌};
ghost use Rattle.q_tree.specs.answers.Flows.{listed_flows, flows_of, listed};

use crate::node::{Discipline, Node};
use crate::tree::Tree;
use q_fqcodel::FqCodel;

/// How many flows an fq_codel has in its lists of new and of old flows (RFC 8290, section 4.2). Together they are at most as many as its flows.
#[derive(Clone, Copy, PartialEq, Eq, Debug)]
pub struct ListedFlows {
    pub new_flows: u32,
    pub old_flows: u32,
}

impl Tree {
    /// Returns how many flows are in the lists of the fq_codel with this index, which counts as for [`Tree::node`]. Returns `None` if the node is
    /// another qdisc, and past the last node. Walks over no list of flows.
    pub fn flows(&self, i: usize) -> Option<ListedFlows>
        ensures { result ≡ flows_of i self.now.tree }
    {
        let Some((_, node)) = self.nth(i) else {
            return None;
        };
        node.listed_flows()
    }
}

impl Node {
    /// How many flows it has listed, if it is an fq_codel.
    pub(crate) fn listed_flows(&self) -> Option<ListedFlows>
        ensures { result ≡ listed_flows self.now.own.discipline }
    {
        match &self.discipline {
            Discipline::FqCodel(queue) => return Some(listed(queue)),
            Discipline::Fifo(_)
            | Discipline::Prio { .. }
            | Discipline::Tbf { .. }
            | Discipline::Drr { .. } => return None,
        }
    }
}

// The flows of an fq_codel that are listed.
fn listed(queue: &FqCodel) -> ListedFlows
    ensures { result ≡ listed queue.now.state }
{
    // Every fq_codel is lawful, so that no more flows are listed than it has, which are 65536 at most.
    let _queued = queue.queued();
    let settings = queue.settings();
    let _ = &settings.flows;
    let (new_flows, old_flows) = queue.listed();
    ListedFlows {
        new_flows: new_flows as u32,
        old_flows: old_flows as u32,
    }
}
