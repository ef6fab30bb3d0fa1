ghost use Rattle.std.specs.Prelude.{◌≡◌, ◌↔◌, IfSome, IsSome};
ghost use Rattle.q_model.specs.Numbers.{IsLatency};

use std::marker::Model;

/// How long a packet may wait for the tokens of a tbf, in nanoseconds, at most 10^12 (tc-tbf(8), `latency`; the bound of
/// 1000 s is this project's choice).
///
/// A contract sees it as that number.
#[derive(Clone, Copy, PartialEq, Eq, Debug)]
pub struct Latency {
    nanoseconds: u64,
}

impl Model for Latency {
    ghost use Rattle.std.specs.Prelude.{ℕ};
    ghost use Rattle.q_model.specs.Numbers.{IsLatency};

    ghost Value = { ℕ };

    ghost view = { λ n. n.nanoseconds };

    ghost invariant = { λ n. IsLatency n.nanoseconds };

    ghost inverse = { λ n. record { nanoseconds = n } };
}

impl Latency {
    /// A latency of so many nanoseconds; `None` where they are more than 10^12.
    pub fn new(nanoseconds: u64) -> Option<Latency>
        ensures in_range { IsSome result ↔ IsLatency nanoseconds }
        ensures value { IfSome result (λ n. n ≡ nanoseconds) }
    {
        if nanoseconds <= 1_000_000_000_000 {
            Some(Latency { nanoseconds })
        } else {
            None
        }
    }

    /// The nanoseconds.
    pub fn nanoseconds(self) -> u64
        ensures value { result ≡ self }
        ensures in_range { IsLatency result }
    {
        self.nanoseconds
    }
}
