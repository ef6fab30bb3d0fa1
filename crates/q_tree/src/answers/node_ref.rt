ghost use Rattle.std.specs.Prelude.{◌≡◌, slice_get};
ghost use Rattle.q_model.specs.Views.{class_views, filter_views, node_view};
ghost use Rattle.q_tree.specs.answers.Flows.{listed_flows};
ghost use Rattle.q_tree.specs.answers.Showing.{IsNumbered};
ghost use Rattle.q_tree.specs.Kept.{kept};

use crate::answers::listed_flows::ListedFlows;
use crate::node::Node;
use q_model::{ClassView, FilterView, NodeView, Place};
use std::marker::Model;

/// A node of a tree, as [`crate::Nodes`] returns it. What show prints of it is read without another search for the node.
///
/// In contracts it is the place of the node, and the node.
#[derive(Drop)]
pub struct NodeRef<'a> {
    place: Place,
    node: &'a Node,
}

impl<'a> Model for NodeRef<'a> {
    ghost use Rattle.q_model.specs.Node as spec;
    ghost use Rattle.q_model.specs.declared.place.Place.{Place as Where};
    ghost use Rattle.q_tree.specs.answers.NodesCode.{standing_code};
    ghost use Rattle.q_tree.specs.Kept.{Kept};

    ghost Value = { Where × spec.Node Kept };

    ghost coded = { standing_code };

    ghost use Rattle.q_tree.specs.answers.Showing.{IsNumbered};

    ghost view = { λ a. (a.place, a.node.now) };

    ghost invariant = { λ a. IsNumbered a.node.now };
}

impl<'a> NodeRef<'a> {
    // The node in this place.
    pub(crate) fn new(place: Place, node: &'a Node) -> NodeRef<'a>
        requires { IsNumbered node.now }
        ensures { result ≡ (place, node.now) }
    {
        NodeRef { place, node }
    }

    /// Returns what `tc -s qdisc show` prints of the node.
    pub fn view(&self) -> NodeView
        ensures { result ≡ node_view kept self.now.0 self.now.1 }
    {
        self.node.view(self.place)
    }

    /// Returns what `tc class show` prints of the class with this index, in class order, or `None` past the last class.
    pub fn class(&self, j: usize) -> Option<ClassView>
        ensures { result ≡ slice_get (class_views self.now.1) j }
    {
        self.node.class_view(j)
    }

    /// Returns what `tc filter show` prints of the filter with this index, in the order in which filters are tried, or `None` past the last filter.
    pub fn filter(&self, j: usize) -> Option<FilterView>
        ensures { result ≡ slice_get (filter_views self.now.1) j }
    {
        self.node.filter_view(j)
    }

    /// Returns how many flows are in the lists of an fq_codel, or `None` if the node is another qdisc.
    pub fn flows(&self) -> Option<ListedFlows>
        ensures { result ≡ listed_flows self.now.1.own.discipline }
    {
        self.node.listed_flows()
    }
}
