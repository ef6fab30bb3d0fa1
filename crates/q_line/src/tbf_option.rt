/// An option of a tbf (tc-tbf(8)). The limit and the latency are one, so only one of them may be given.
#[derive(Clone, Copy)]
pub enum TbfOption {
    Rate,
    Burst,
    Limit,
    Latency,
}
