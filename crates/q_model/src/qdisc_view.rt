use q_fqcodel::Settings;

/// A qdisc with all its settings, as `show` prints them.
#[derive(Clone, Copy, PartialEq, Eq, Debug)]
pub enum QdiscView {
    /// The limit is in packets.
    Pfifo { limit: u64 },
    /// The limit is in bytes.
    Bfifo { limit: u64 },
    Prio { bands: u8, priomap: [u8; 16] },
    /// The rate is in bits a second, burst and limit in bytes.
    Tbf { rate: u64, burst: u32, limit: u64 },
    Drr,
    FqCodel(Settings),
}
