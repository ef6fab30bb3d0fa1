use crate::totals::Totals;

/// What a node counted, in the manner of `tc -s qdisc show` (tc(8)).
///
/// `arrived` is to be `sent`, `refused`, `dropped` and `queued` together; `marked` is in no sum.
#[derive(Clone, Copy, PartialEq, Eq, Debug)]
pub struct Row {
    /// Packets that reached the node.
    pub arrived: Totals,
    /// Packets that it handed to the node above, or that the device sent.
    pub sent: Totals,
    /// Packets lost on arrival, at the node or below it.
    pub refused: Totals,
    /// Packets lost after they were queued, be it in their own arrival, at the node or below it.
    pub dropped: Totals,
    /// Packets that wait at the node or below it.
    pub queued: Totals,
    /// Packets marked in place of a drop, at the node or below it (RFC 3168).
    pub marked: Totals,
}
