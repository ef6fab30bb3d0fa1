use crate::handle::Handle;
use crate::place::Place;
use crate::qdisc_view::QdiscView;
use crate::row::Row;

/// What `tc -s qdisc show` prints of a node.
#[derive(Clone, Copy, PartialEq, Eq, Debug)]
pub struct NodeView {
    /// `None` for an implicit leaf.
    pub handle: Option<Handle>,
    pub place: Place,
    pub qdisc: QdiscView,
    pub row: Row,
}
