//! What a tree has, read from it once.
use crate::adding::add;
use crate::alike::quantum_of;
use q_model::{ClassId, ClassView, FilterPrio, FilterView, Handle, NodeView};
use q_tree::{NodeRef, Tree};
use std::alloc::{AllocError, Global};

/// The most classes of a node, and filters.
const MOST_LISTED: usize = 256;

/// The nodes, classes and filters of a tree, in the order of show.
#[derive(Drop)]
pub(crate) struct Seen {
    pub(crate) nodes: Vec<NodeView>,
    pub(crate) classes: Vec<ClassView>,
    pub(crate) filters: Vec<FilterView>,
    /// Where the filters of each node begin, so that no other node's filters are searched.
    first_filters: Vec<usize>,
}

impl Seen {
    /// What a tree has.
    pub(crate) fn of(alloc: Global, tree: &Tree) -> Result<Seen, AllocError> {
        let mut seen = Seen {
            nodes: Vec::new(alloc),
            classes: Vec::new(alloc),
            filters: Vec::new(alloc),
            first_filters: Vec::new(alloc),
        };
        let mut nodes = tree.nodes();
        while let Some(node) = nodes.next() {
            add(&mut seen.nodes, node.view())?;
            add_classes(&mut seen.classes, &node)?;
            add(&mut seen.first_filters, seen.filters.len())?;
            add_filters(&mut seen.filters, &node)?;
        }
        Ok(seen)
    }

    /// The qdisc with this handle.
    pub(crate) fn qdisc(&self, handle: Handle) -> Option<NodeView> {
        for node in &self.nodes {
            if node.handle == Some(handle) {
                return Some(*node);
            }
        }
        None
    }

    /// The quantum of a class of a drr; `None` where there is no such class.
    pub(crate) fn quantum(&self, class: &ClassId) -> Option<u32> {
        for view in &self.classes {
            if view.class == *class {
                return quantum_of(&view.kind);
            }
        }
        None
    }

    /// The place among all filters of the first of a qdisc's filters with this priority.
    pub(crate) fn group(&self, parent: Handle, prio: FilterPrio) -> usize {
        for place in self.first_filter(parent)..self.filters.len() {
            let filter = &self.filters[place];
            if filter.parent != parent {
                return self.filters.len();
            }
            if filter.filter.prio == prio {
                return place;
            }
        }
        self.filters.len()
    }

    // The place of the first of a qdisc's filters, if it has one.
    fn first_filter(&self, parent: Handle) -> usize {
        for at in 0..self.nodes.len() {
            if self.nodes[at].handle == Some(parent) {
                if let Some(first) = self.first_filters.get(at) {
                    return *first;
                }
            }
        }
        self.filters.len()
    }

    /// The filter in this place, if it is one of a qdisc's filters with this priority.
    pub(crate) fn filter(
        &self,
        place: usize,
        parent: Handle,
        prio: FilterPrio,
    ) -> Option<FilterView> {
        let filter = *self.filters.get(place)?;
        if filter.parent == parent && filter.filter.prio == prio {
            Some(filter)
        } else {
            None
        }
    }
}

fn add_classes(classes: &mut Vec<ClassView>, node: &NodeRef<'_>) -> Result<(), AllocError> {
    for j in 0..MOST_LISTED {
        let Some(class) = node.class(j) else {
            return Ok(());
        };
        add(classes, class)?;
    }
    Ok(())
}

fn add_filters(filters: &mut Vec<FilterView>, node: &NodeRef<'_>) -> Result<(), AllocError> {
    for j in 0..MOST_LISTED {
        let Some(filter) = node.filter(j) else {
            return Ok(());
        };
        add(filters, filter)?;
    }
    Ok(())
}
