use crate::filter::Filter;
use crate::handle::Handle;

/// What `tc filter show` prints of a filter.
#[derive(Clone, Copy, PartialEq, Eq, Debug)]
pub struct FilterView {
    /// The handle of its qdisc.
    pub parent: Handle,
    pub filter: Filter,
}
