ghost use Rattle.std.specs.Prelude.{◌≡◌};
ghost use Rattle.q_fqcodel.specs.Pool.{no_list};

/// The packets of one flow, as a list that is linked by keys.
///
/// `head` and `tail` are read only where `count` is not 0.
// `count` and `bytes` lie apart, since side by side a take reads both at once and waits for the two writes of a put.
#[derive(Clone, Copy, Debug)]
pub(crate) struct FlowList {
    /// The key of the first packet.
    pub head: usize,
    pub count: u64,
    /// The key of the last.
    pub tail: usize,
    /// The bytes of all its packets.
    pub bytes: u64,
}

const _: () = prove!(size_of::<FlowList>() <= 32);

impl FlowList {
    /// A list without packets.
    pub(crate) fn new() -> FlowList
        ensures { result ≡ no_list }
    {
        FlowList {
            head: 0,
            tail: 0,
            count: 0,
            bytes: 0,
        }
    }
}
