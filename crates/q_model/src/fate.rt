use q_packet::Cause;

/// What became of a packet as it arrived.
#[derive(Clone, Copy, PartialEq, Eq, Debug)]
pub enum Fate {
    /// It is queued.
    Kept,
    /// It was refused, or dropped at once.
    Lost(Cause),
}
