//! The tree that a file wants beside the tree that a device has: what of it stays.
use crate::kinds::can_become;
use crate::naming::{same_handle, same_place};
use crate::seen::Seen;
use q_model::{FilterPrio, Handle, NodeView, Place};

/// The most levels of a tree.
const MOST_LEVELS: usize = 8;

/// The most filters of a node.
const MOST_FILTERS: usize = 256;

/// Two trees, as they were read.
#[derive(Clone, Copy)]
pub(crate) struct Pair<'a> {
    /// Whether a number that a device chose stays, whatever it is: no line names one.
    pub(crate) keep: bool,
    pub(crate) mtu: u16,
    pub(crate) wanted: &'a Seen,
    pub(crate) seen: &'a Seen,
}

impl<'a> Pair<'a> {
    /// The qdisc that the file wants where this one is, if a change makes it of this one.
    pub(crate) fn wanted_for(&self, node: &NodeView) -> Option<NodeView> {
        for wanted in &self.wanted.nodes {
            if self.can_be(node, wanted) {
                return Some(*wanted);
            }
        }
        None
    }

    fn can_be(&self, node: &NodeView, wanted: &NodeView) -> bool {
        node.handle.is_some()
            && same_handle(self.keep, wanted.handle, node.handle)
            && same_place(self.keep, wanted.place, node.place)
            && can_become(&node.qdisc, &wanted.qdisc, self.mtu)
    }

    /// Whether a qdisc stays: it can be what the file wants there, and so can each above it.
    pub(crate) fn stays(&self, node: &NodeView) -> bool {
        let mut node = *node;
        for _ in 0..MOST_LEVELS {
            if self.wanted_for(&node).is_none() {
                return false;
            }
            let Place::Class(class) = node.place else {
                return true;
            };
            let Some(above) = self.seen.qdisc(class.major) else {
                return false;
            };
            node = above;
        }
        false
    }

    /// Whether the qdisc with this handle stays.
    pub(crate) fn handle_stays(&self, handle: Handle) -> bool {
        match self.seen.qdisc(handle) {
            Some(node) => self.stays(&node),
            None => false,
        }
    }

    /// The qdisc that stays and is what this one of the file's is to be.
    pub(crate) fn staying(&self, wanted: &NodeView) -> Option<NodeView> {
        for node in &self.seen.nodes {
            if self.can_be(node, wanted) && self.stays(node) {
                return Some(*node);
            }
        }
        None
    }

    /// Whether a qdisc, which stays, has the filters of this priority that the file wants, in their order.
    pub(crate) fn filters_stay(&self, parent: Handle, prio: FilterPrio) -> bool {
        let (wanted, seen) = (
            self.wanted.group(parent, prio),
            self.seen.group(parent, prio),
        );
        for j in 0..MOST_FILTERS + 1 {
            let wanted = self.wanted.filter(wanted.saturating_add(j), parent, prio);
            let filter = self.seen.filter(seen.saturating_add(j), parent, prio);
            if wanted != filter {
                return false;
            }
            if wanted.is_none() {
                return true;
            }
        }
        false
    }
}

/// Whether the qdiscs of filters stay. Filters come qdisc by qdisc, so the answer for the last one serves all of its filters.
#[derive(Clone, Copy)]
pub(crate) struct Parents {
    last: Option<Handle>,
    stays: bool,
}

impl Parents {
    pub(crate) fn new() -> Parents {
        Parents {
            last: None,
            stays: false,
        }
    }

    pub(crate) fn stays(&mut self, pair: &Pair<'_>, parent: Handle) -> bool {
        if self.last != Some(parent) {
            self.stays = pair.handle_stays(parent);
            self.last = Some(parent);
        }
        self.stays
    }
}
