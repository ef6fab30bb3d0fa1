/// What a put dropped: the batch that the fat flow loses where the limit is passed (tc-fq_codel(8), `drop_batch`).
#[derive(Clone, Copy, Debug)]
pub struct Dropped {
    /// The packets of the batch: none where the limit was not passed.
    pub packets: u64,
    /// Their bytes.
    pub bytes: u64,
    /// Whether the packet that was put is itself among them.
    pub itself: bool,
}
