ghost use Rattle.q_model.specs.Ranges.{IsFilter};

use crate::filter_keys::FilterKeys;
use crate::filter_prio::FilterPrio;
use crate::minor::Minor;
use crate::protocol::Protocol;

/// A filter of a node: which packets it takes, and into which class of that node. The widest field comes first, since
/// fields are laid out in this order.
#[derive(Clone, Copy, PartialEq, Eq, Debug)]
pub struct Filter {
    pub keys: FilterKeys,
    /// Its priority; a lower one is asked first.
    pub prio: FilterPrio,
    /// The minor number of the class.
    pub minor: Minor,
    pub protocol: Protocol,
}

impl Filter {
    /// Every number is in its range, which the types keep. It does nothing: its clause is for the laws of other crates.
    pub fn ranges(&self)
        ensures { IsFilter self.now }
    {
        self.prio.number();
        self.keys.ranges();
        self.minor.number();
    }
}
