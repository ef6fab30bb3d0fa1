use crate::entry::Entry;

/// What a visit to the old flow in front came to.
#[derive(Clone, Copy)]
pub(crate) struct Visit {
    /// The flow, if it sends.
    pub first: Option<Entry>,
    /// Whether it got a quantum, and needs more.
    pub short: bool,
}
