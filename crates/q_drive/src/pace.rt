ghost use Rattle.std.specs.Prelude.{◌≡◌, ◌^◌};

use q_packet::Moment;

/// How a drive goes on: when its first turn comes, how many nanoseconds are between two turns, and how often a packet is offered.
#[derive(Clone, Copy)]
pub struct Pace {
    pub start: Moment,
    pub step: u64,
    pub tries: u64,
}

/// The pace of `qtree drive`: a turn each microsecond from 0 on, and a thousand million offers at most.
pub fn drive_pace() -> Pace
    ensures start { result.start ≡ 0 }
    ensures step { result.step ≡ 1000 }
    ensures tries { result.tries ≡ 10 ^ 9 }
{
    Pace {
        start: Moment::zero(),
        step: 1000,
        tries: 1_000_000_000,
    }
}
