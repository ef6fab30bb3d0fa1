ghost use Rattle.q_model.specs.Ranges.{IsClassId};

use crate::handle::Handle;
use crate::minor::Minor;

/// The name of a class, `major:minor` (tc(8), "NAMING").
#[derive(Clone, Copy, PartialEq, Eq, Debug)]
pub struct ClassId {
    /// The handle of its qdisc.
    pub major: Handle,
    /// Its number among the classes of that qdisc.
    pub minor: Minor,
}

impl ClassId {
    /// Every number is in its range, which the types keep. It does nothing: its clause is for the laws of other crates.
    pub fn ranges(&self)
        ensures { IsClassId self.now }
    {
        self.major.major();
        self.minor.number();
    }
}
