/// The answer of a poll that writes its packet into a place of the caller.
#[derive(Clone, Copy, PartialEq, Eq, Debug)]
pub enum Given {
    /// A packet, which is in that place now.
    Packet,
    /// No packet, since none is queued.
    Idle,
    /// No packet, although some are queued.
    Later,
}
