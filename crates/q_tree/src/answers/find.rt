//! How a node is found that a command or a caller names: down a path of places, one at each level, or by the number of a class.
ghost use Rattle.std.specs.Prelude.{◌≡◌, option_copied};
ghost use Rattle.q_model.specs.Beneath.{row};
ghost use Rattle.q_model.specs.Find.{class_place, node_at};
ghost use Rattle.q_model.specs.Node.{children};
ghost use Rattle.q_tree.specs.answers.Finding.{class_with};
ghost use Rattle.q_tree.specs.Kept.{kept};

use crate::node::{Discipline, Node, child_at};
use arrayvec::ArrayVec;
use q_model::{Minor, Row};

/// A path down from a node: the place of the child at each step. A tree has at most eight levels.
pub(crate) type Path = ArrayVec<usize, 8>;

impl Node {
    /// What the node counted, and what is queued at it and below it.
    pub(crate) fn row(&self) -> Row
        ensures { result ≡ row kept self.now }
    {
        self.row.row()
    }

    /// The children, in class order.
    pub(crate) fn children(&self) -> &[Node]
        ensures { result.now ≡ children self.now }
    {
        match &self.discipline {
            Discipline::Prio { bands, .. } => return bands,
            Discipline::Tbf { child, .. } => return std::slice::from_ref(child),
            Discipline::Drr { classes, .. } => return classes,
            Discipline::Fifo(_) | Discipline::FqCodel(_) => return &[],
        }
    }

    /// The place among the children of the class of this number. Bands count from 1, and the class of a tbf is 1 (tc-prio(8),
    /// tc-tbf(8)).
    pub(crate) fn class_place(&self, minor: Minor) -> Option<usize>
        ensures { result ≡ class_place minor self.now }
    {
        match &self.discipline {
            Discipline::Prio { bands, .. } => {
                let place = usize::from(minor.number()) - 1;
                if place < bands.len() {
                    return Some(place);
                }
                return None;
            }
            Discipline::Tbf { .. } => {
                if minor.number() == 1 {
                    return Some(0);
                }
                return None;
            }
            Discipline::Drr { active, .. } => return active.place_of(minor.number()),
            Discipline::Fifo(_) | Discipline::FqCodel(_) => return None,
        }
    }

    /// The child in the class of this number.
    pub(crate) fn class(&self, minor: Minor) -> Option<&Node>
        ensures { option_copied result ≡ class_with minor self.now }
    {
        self.children().get(self.class_place(minor)?)
    }

    /// The node at the end of this path.
    pub(crate) fn at(&self, path: &[usize]) -> Option<&Node>
        ensures { option_copied result ≡ node_at path.now self.now }
    {
        let Some((&place, rest)) = path.split_first() else {
            return Some(self);
        };
        child_at(self.children(), place)?.at(rest)
    }
}
