ghost use Rattle.std.specs.Prelude.{◌≡◌, ◌≤◌};
ghost use Rattle.q_invariants.specs.Sizes.{levels_made, nodes_made};
ghost use Rattle.q_model.specs.Find.{count_nodes};
ghost use Rattle.q_model.specs.Refusals.{most_nodes};

use crate::node::Node;
use q_model::Kind;

/// The most nodes of a tree, implicit leaves among them.
pub(crate) const MOST_NODES: usize = 256;

/// The most levels of a tree.
pub(crate) const MOST_LEVELS: usize = 8;

impl Node {
    /// How many nodes are here and below.
    pub(crate) fn count_nodes(&self) -> usize
        requires { count_nodes self.now ≤ most_nodes }
        ensures { result ≡ count_nodes self.now }
    {
        let mut nodes = 1;
        for child in self.children() {
            nodes += child.count_nodes();
        }
        nodes
    }
}

/// How deep a new qdisc of this kind is: a prio and a tbf have leaves below them.
pub(crate) fn levels_made(kind: &Kind) -> usize
    ensures { result ≡ levels_made kind.now }
{
    match kind {
        Kind::Prio(_) | Kind::Tbf { .. } => 2,
        Kind::Pfifo { .. } | Kind::Bfifo { .. } | Kind::Drr | Kind::FqCodel(_) => 1,
    }
}

/// How many nodes a new qdisc of this kind has.
pub(crate) fn nodes_made(kind: &Kind) -> usize
    ensures value { result ≡ nodes_made kind.now }
    ensures few { result ≤ most_nodes }
{
    match kind {
        Kind::Prio(options) => 1 + usize::from(options.bands),
        Kind::Tbf { .. } => 2,
        Kind::Pfifo { .. } | Kind::Bfifo { .. } | Kind::Drr | Kind::FqCodel(_) => 1,
    }
}
