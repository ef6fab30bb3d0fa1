use q_model::Totals;
use q_packet::Cause;

/// What putting a packet came to: whether it was itself lost, and all that was lost for it where its path ended.
#[derive(Clone, Copy)]
pub(crate) struct Outcome {
    /// The cause where the packet itself was lost.
    pub(crate) loss: Option<Cause>,
    /// What was refused.
    pub(crate) refused: Totals,
    /// What was dropped: an fq_codel over its limit loses packets of its fattest flow.
    pub(crate) dropped: Totals,
}
