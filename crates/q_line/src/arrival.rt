use q_packet::{Ecn, FlowKey};

/// A packet that arrives at the device, as a `pkt` line describes it. The widest fields come first, since fields are laid out in this order.
#[derive(Clone, Copy, PartialEq, Eq, Debug)]
pub struct Arrival {
    pub key: FlowKey,
    /// The hash of the flow, if the line gives one.
    pub hash: Option<u32>,
    /// Its length in bytes, 1 to 65535.
    pub len: u16,
    /// Its priority, 0 to 15.
    pub prio: u8,
    pub ecn: Ecn,
}
