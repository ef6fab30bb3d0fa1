ghost use Rattle.std.specs.Prelude.{◌≡◌, ◌↔◌, IfSome, IsSome};
ghost use Rattle.q_model.specs.Numbers.{IsRate};

use std::marker::Model;

/// The rate of a tbf in bits a second, 1 to 10^12 (tc-tbf(8), `rate`; the range is this project's choice).
///
/// A contract sees it as that number.
#[derive(Clone, Copy, PartialEq, Eq, Debug)]
pub struct Rate {
    bits: u64,
}

impl Model for Rate {
    ghost use Rattle.std.specs.Prelude.{ℕ};
    ghost use Rattle.q_model.specs.Numbers.{IsRate};

    ghost Value = { ℕ };

    ghost view = { λ n. n.bits };

    ghost invariant = { λ n. IsRate n.bits };

    ghost inverse = { λ n. record { bits = n } };
}

impl Rate {
    /// A rate of so many bits a second; `None` where they are 0 or more than 10^12.
    pub fn new(bits: u64) -> Option<Rate>
        ensures in_range { IsSome result ↔ IsRate bits }
        ensures value { IfSome result (λ n. n ≡ bits) }
    {
        if bits >= 1 && bits <= 1_000_000_000_000 {
            Some(Rate { bits })
        } else {
            None
        }
    }

    /// The bits a second.
    pub fn bits(self) -> u64
        ensures value { result ≡ self }
        ensures in_range { IsRate result }
    {
        self.bits
    }
}
