ghost use Rattle.std.specs.Prelude.{◌≡◌, ◌↔◌, IfSome, IsSome};
ghost use Rattle.q_model.specs.Numbers.{IsBurst};

use std::marker::Model;

/// The burst of a tbf in bytes, 1 to 2^32 - 1 (tc-tbf(8), `burst`).
///
/// A contract sees it as that number.
#[derive(Clone, Copy, PartialEq, Eq, Debug)]
pub struct Burst {
    bytes: u32,
}

impl Model for Burst {
    ghost use Rattle.std.specs.Prelude.{ℕ};
    ghost use Rattle.q_model.specs.Numbers.{IsBurst};

    ghost Value = { ℕ };

    ghost view = { λ n. n.bytes };

    ghost invariant = { λ n. IsBurst n.bytes };

    ghost inverse = { λ n. record { bytes = n } };
}

impl Burst {
    /// A burst of so many bytes; `None` where there are none.
    pub fn new(bytes: u32) -> Option<Burst>
        ensures in_range { IsSome result ↔ IsBurst bytes }
        ensures value { IfSome result (λ n. n ≡ bytes) }
    {
        if bytes >= 1 {
            Some(Burst { bytes })
        } else {
            None
        }
    }

    /// The number of bytes.
    pub fn bytes(self) -> u32
        ensures value { result ≡ self }
        ensures in_range { IsBurst result }
    {
        self.bytes
    }
}
