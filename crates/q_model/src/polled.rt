use q_packet::Packet;

/// What a poll gave.
#[derive(Clone, Copy, PartialEq, Eq, Debug)]
pub enum Polled {
    /// This packet is sent.
    Packet(Packet),
    /// None, and nothing is queued.
    Idle,
    /// None, though something is queued.
    Later,
}
