ghost use Rattle.std.specs.Prelude.{◌≡◌, ◌≤◌, ◌+◌, [], ◌∷◌, ◌++◌, IfSome, MatchOption, None, length, map};
ghost use Rattle.q_model.specs.Conserved.{every_node};
ghost use Rattle.q_model.specs.Find.{depth};
ghost use Rattle.q_model.specs.Views.{node_view, views};
ghost use Rattle.q_model.specs.declared.place.Place.TheVariants as place;
ghost use Rattle.q_tree.specs.answers.Nodes.{IsNextBehind, behind, children_from};
ghost use Rattle.q_tree.specs.answers.Showing.{IsNumbered, standing};
ghost use Rattle.q_tree.specs.Kept.{kept};

use crate::answers::find::Path;
use crate::answers::node_ref::NodeRef;
use crate::node::{Node, child_at};
use crate::tree::Tree;
use q_model::Place;
use std::marker::Model;

/// A walk over the nodes of a tree, in the order of `tc qdisc show`: the nodes that are still to come. [`Tree::nodes`] returns it.
///
/// It remembers the path to the node that it returned last. So a step takes at most as many moves as the tree has levels, however many nodes there
/// are. In contracts it is the list of the nodes to come, each with its place.
#[derive(Drop)]
pub struct Nodes<'a> {
    root: &'a Node,
    /// The path to the node that was returned last; `None` before the first.
    last: Option<Path>,
}

impl<'a> Model for Nodes<'a> {
    ghost use Rattle.std.specs.Prelude.{List};
    ghost use Rattle.q_model.specs.Node as spec;
    ghost use Rattle.q_model.specs.declared.place.Place.{Place as Where};
    ghost use Rattle.q_tree.specs.answers.NodesCode.{nodes_code};
    ghost use Rattle.q_tree.specs.Kept.{Kept};

    ghost Value = { List (Where × spec.Node Kept) };

    ghost coded = { nodes_code };

    ghost use Rattle.q_tree.specs.answers.NodesSeen.{IsWalk, nodes_seen};

    ghost view = { nodes_seen };

    ghost invariant = { IsWalk };
}

impl<'a> Nodes<'a> {
    /// Returns the next node, or `None` past the last.
    pub fn next(&mut self) -> Option<NodeRef<'a>>
        ensures found { MatchOption result (self.old ≡ []) (λ node. self.old ≡ node ∷ self.new) }
        ensures end { result ≡ None → self.new ≡ self.old }
    {
        let root = self.root;
        let Some(last) = &self.last else {
            self.last = Some(Path::new());
            return Some(NodeRef::new(Place::Root, root));
        };
        let mut way = Path::new();
        let Some((place, node)) = root.next_behind(last, &mut way) else {
            return None;
        };
        self.last = Some(way);
        Some(NodeRef::new(place, node))
    }
}

impl Tree {
    /// Returns a walk over all nodes in the order of `tc qdisc show`. The k-th of them, counted from 0, is the node that [`Tree::node`] of `k`
    /// shows.
    pub fn nodes(&self) -> Nodes<'_>
        ensures standing { result ≡ standing place.Root self.now.tree.root }
        ensures views { map (λ x. node_view kept x.0 x.1) result ≡ views kept self.now.tree }
        ensures every { map (λ x. x.1) result ≡ every_node self.now.tree.root }
    {
        // That the tree is lawful is known where it is looked into.
        let _ = &self.mtu;
        Nodes {
            root: &self.root,
            last: None,
        }
    }
}

impl Node {
    // The node that comes next behind the one at the end of a path, with the place where it is. The path to it is put behind
    // the path that leads to this node.
    fn next_behind(&self, way: &[usize], here: &mut Path) -> Option<(Place, &Node)>
        requires numbered { IsNumbered self.now }
        requires levels { length here.old.items + depth self.now ≤ 8 }
        ensures found { IfSome result (λ x. IsNextBehind way.now self.now here.old.items here.new.items (x.0, x.1.now)) }
        ensures numbered { IfSome result (λ x. IsNumbered x.1.now) }
        ensures end { result ≡ None → behind way.now self.now ≡ [] }
        ensures stays { result ≡ None → here.new.items ≡ here.old.items }
    {
        let Some((&i, rest)) = way.split_first() else {
            return self.child_from(0, here);
        };
        let child = child_at(self.children(), i)?;
        here.push(i);
        if let Some(found) = child.next_behind(rest, here) {
            return Some(found);
        }
        here.pop();
        self.child_from(i + 1, here)
    }

    // The child in this place, with the place where it is, to which the path goes on then.
    fn child_from(&self, i: usize, here: &mut Path) -> Option<(Place, &Node)>
        requires numbered { IsNumbered self.now }
        requires levels { length here.old.items + depth self.now ≤ 8 }
        ensures found { IfSome result (λ x. children_from i self.now ≡ (x.0, x.1.now) ∷ behind (i ∷ []) self.now) }
        ensures way { IfSome result (λ _. here.new.items ≡ here.old.items ++ i ∷ []) }
        ensures numbered { IfSome result (λ x. IsNumbered x.1.now) }
        ensures end { result ≡ None → children_from i self.now ≡ [] }
        ensures stays { result ≡ None → here.new.items ≡ here.old.items }
    {
        let child = child_at(self.children(), i)?;
        here.push(i);
        Some((self.place_beneath(i), child))
    }
}
