ghost use Rattle.std.specs.Prelude.{◌≡◌, ◌≤◌};
ghost use Rattle.std.specs.Coded.{Coded-set, coded_list};
ghost use Rattle.q_model.specs.Find.{addresses, count_nodes, depth};
ghost use Rattle.q_model.specs.Refusals.{most_levels, most_nodes};
ghost use Rattle.q_tree.specs.commands.Index.{address_code};

use crate::commands::handles::Handles;
use crate::node::Node;

/// The qdiscs of a tree within its bounds, as a line of tc names them: the index of their handles has the paths to them.
#[derive(Clone, Copy)]
pub(crate) struct Qdiscs<'a> {
    pub(crate) root: &'a Node,
    pub(crate) handles: &'a Handles,
    ghost indexed: { handles.now.addresses ≡ addresses root.now } by { Coded-set (coded_list address_code) _ _ },
    ghost levels: { depth root.now ≤ most_levels },
    ghost nodes: { count_nodes root.now ≤ most_nodes },
}
