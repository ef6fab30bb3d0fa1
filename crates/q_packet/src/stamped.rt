use crate::moment::Moment;
use crate::packet::Packet;

/// A packet with the time at which it was queued.
#[derive(Clone, Copy, PartialEq, Eq, Debug)]
pub struct Stamped {
    pub packet: Packet,
    pub at: Moment,
}
