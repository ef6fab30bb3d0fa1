use q_packet::{Cause, Packet};

/// A packet that was lost, and why.
#[derive(Clone, Copy, PartialEq, Eq, Debug)]
pub struct Loss {
    pub packet: Packet,
    pub cause: Cause,
}
