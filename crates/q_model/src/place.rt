ghost use Rattle.q_model.specs.Ranges.{IsPlace};

use crate::class_id::ClassId;

/// A place in the tree, which has one node.
#[derive(Clone, Copy, PartialEq, Eq, Debug)]
pub enum Place {
    /// The device itself, above the root. No qdisc is put there or removed from there.
    Top,
    /// At the root of the device (tc(8), `root`).
    Root,
    /// In this class of another qdisc (tc(8), `parent major:minor`).
    Class(ClassId),
}

impl Place {
    /// Every number is in its range, which the types keep. It does nothing: its clause is for the laws of other crates.
    pub fn ranges(&self)
        ensures { IsPlace self.now }
    {
        if let Place::Class(class) = self {
            class.ranges();
        }
    }
}
