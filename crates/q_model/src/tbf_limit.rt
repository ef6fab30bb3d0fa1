ghost use Rattle.q_model.specs.Ranges.{IsTbfLimit};

use crate::latency::Latency;

/// How much the implicit bfifo of a tbf holds (tc-tbf(8), `limit` or `latency`).
#[derive(Clone, Copy, PartialEq, Eq, Debug)]
pub enum TbfLimit {
    /// So many bytes.
    Bytes(u32),
    /// What the rate brings in this time, and the burst.
    Latency(Latency),
}

impl TbfLimit {
    /// Every number is in its range, which the types keep. It does nothing: its clause is for the laws of other crates.
    pub fn ranges(&self)
        ensures { IsTbfLimit self.now }
    {
        match *self {
            TbfLimit::Bytes(bytes) => {
                let _bytes = bytes;
            }
            TbfLimit::Latency(latency) => {
                latency.nanoseconds();
            }
        }
    }
}
