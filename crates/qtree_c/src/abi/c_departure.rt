ghost use Rattle.std.specs.Prelude.{◌≡◌, ◌-◌, ◌^◌, unwrap_or};
ghost use Rattle.qtree_c.specs.answers.Departures.{departure_told};

use q_device::Latest;
use q_packet::Moment;

/// By when a packet has left that is last in a fifo that no other packet overtakes, or in one in a class of a drr, as C has it. The greatest number
/// stands for a time where no tbf is at the root.
#[repr(C)]
#[derive(Clone, Copy, Drop)]
pub struct CDeparture {
    pub bytes: u64,
    pub at: u64,
    pub late: u64,
}

impl CDeparture {
    /// These numbers as C has them.
    pub fn of(latest: &Latest) -> CDeparture
        ensures { result ≡ departure_told latest.now }
    {
        CDeparture {
            bytes: latest.bytes,
            at: ns_of(latest.at),
            late: latest.late.unwrap_or(u64::MAX),
        }
    }
}

// The nanoseconds of a time, or the greatest number where there is none.
fn ns_of(at: Option<Moment>) -> u64
    ensures { result ≡ unwrap_or at (2 ^ 64 - 1) }
{
    match at {
        Some(at) => at.ns(),
        None => u64::MAX,
    }
}
