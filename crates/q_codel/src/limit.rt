/// How much a fifo holds (tc-pfifo(8), tc-bfifo(8)).
#[derive(Clone, Copy, PartialEq, Eq, Debug)]
pub enum Limit {
    /// It takes a packet while it has fewer than this many packets.
    Packets(u64),
    /// It takes a packet where its bytes and the packet's length together are at most this many.
    Bytes(u64),
}
