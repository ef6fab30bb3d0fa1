/// Functions that [`drive`](crate::drive) calls around each offer, on the sender's thread.
pub trait Gate {
    /// Is called before a packet is offered for the first time. `port` is the index of the port, and `nth` the place of the packet in its load,
    /// counted from 1.
    fn before_offer(&self, port: u32, nth: u64);

    /// Is called after a packet was placed, with the same arguments.
    fn after_offer(&self, port: u32, nth: u64);
}
