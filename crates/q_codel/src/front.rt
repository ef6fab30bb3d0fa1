use q_packet::{Ecn, Moment};

/// What CoDel reads of the packet in front of a queue, which stays where it is.
#[derive(Clone, Copy, Debug)]
pub struct Front {
    /// When it was queued.
    pub at: Moment,
    /// Its length in bytes.
    pub len: u16,
    /// Its ECN codepoint.
    pub ecn: Ecn,
}
