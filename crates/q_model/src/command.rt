ghost use Rattle.q_model.specs.Ranges.{IsCommand};

use crate::class_id::ClassId;
use crate::filter::Filter;
use crate::filter_prio::FilterPrio;
use crate::handle::Handle;
use crate::kind::Kind;
use crate::place::Place;
use crate::quantum::Quantum;
use crate::ranges::{class_ranges, filter_ranges, qdisc_ranges};

/// A change of the tree that a `tc` line asks for.
///
/// Each number is in its range, since its type keeps it. Of `place` and `handle` in a change or a removal at least one is
/// given; where both are, they have to name the same qdisc. `parent` in a class line has to be the major number of the class.
#[derive(Clone, Copy, PartialEq, Eq, Debug)]
pub enum Command {
    /// `tc qdisc add`: puts a qdisc into a place.
    QdiscAdd {
        place: Place,
        /// `None` where the line leaves the choice to the device.
        handle: Option<Handle>,
        kind: Kind,
    },
    /// `tc qdisc change`: gives a qdisc other options.
    QdiscChange {
        place: Option<Place>,
        handle: Option<Handle>,
        kind: Kind,
    },
    /// `tc qdisc del`: removes a qdisc with all that is below it.
    QdiscDel {
        place: Option<Place>,
        handle: Option<Handle>,
    },
    /// `tc class add`: a new class of a drr; its quantum is the mtu if none is named.
    ClassAdd {
        parent: Handle,
        class: ClassId,
        quantum: Option<Quantum>,
    },
    /// `tc class change`: gives a class of a drr another quantum.
    ClassChange {
        parent: Option<Handle>,
        class: ClassId,
        quantum: Option<Quantum>,
    },
    /// `tc class del`: removes a class of a drr with all that is below it.
    ClassDel {
        parent: Option<Handle>,
        class: ClassId,
    },
    /// `tc filter add`: a filter of the qdisc with this handle; `major` is that of the class that the line names.
    FilterAdd {
        parent: Handle,
        major: Handle,
        filter: Filter,
    },
    /// `tc filter del`: removes all filters of that priority.
    FilterDel {
        parent: Handle,
        prio: FilterPrio,
    },
}

impl Command {
    /// Every number is in its range, which the types keep. It does nothing: its clause is for the laws of other crates.
    pub fn ranges(&self)
        ensures { IsCommand self.now }
    {
        match self {
            Command::QdiscAdd {
                place,
                handle,
                kind,
            } => qdisc_ranges(Some(*place), *handle, Some(*kind)),
            Command::QdiscChange {
                place,
                handle,
                kind,
            } => qdisc_ranges(*place, *handle, Some(*kind)),
            Command::QdiscDel { place, handle } => qdisc_ranges(*place, *handle, None),
            Command::ClassAdd {
                parent,
                class,
                quantum,
            } => class_ranges(Some(*parent), *class, *quantum),
            Command::ClassChange {
                parent,
                class,
                quantum,
            } => class_ranges(*parent, *class, *quantum),
            Command::ClassDel { parent, class } => class_ranges(*parent, *class, None),
            Command::FilterAdd {
                parent,
                major,
                filter,
            } => filter_ranges(*parent, *major, *filter),
            Command::FilterDel { parent, prio } => {
                parent.major();
                prio.number();
            }
        }
    }
}
