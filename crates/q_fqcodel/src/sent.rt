use q_packet::Moment;

/// What a take into a caller's packet did, so that no packet is copied on the way up.
#[derive(Clone, Copy, Debug)]
pub struct Sent {
    /// The length in bytes of the packet that was sent; 0 where there was none.
    pub len: u16,
    /// Whether it was marked on its way out: it has the codepoint `Ce` then.
    pub marked: bool,
    /// Whether CoDel dropped packets before it.
    pub dropped: bool,
    /// When it was queued; 0 where there was none.
    pub at: Moment,
}
