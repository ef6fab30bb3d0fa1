ghost use Rattle.std.specs.Prelude.{◌≡◌, ◌↔◌, IfSome, IsSome};
ghost use Rattle.q_model.specs.Numbers.{IsQuantum};

use std::marker::Model;

/// The bytes of each grant to a class of a drr, 1 to 2^32 - 1 (tc-drr(8), `quantum`).
///
/// A contract sees it as that number.
#[derive(Clone, Copy, PartialEq, Eq, Debug)]
pub struct Quantum {
    bytes: u32,
}

impl Model for Quantum {
    ghost use Rattle.std.specs.Prelude.{ℕ};
    ghost use Rattle.q_model.specs.Numbers.{IsQuantum};

    ghost Value = { ℕ };

    ghost view = { λ n. n.bytes };

    ghost invariant = { λ n. IsQuantum n.bytes };

    ghost inverse = { λ n. record { bytes = n } };
}

impl Quantum {
    /// A quantum of so many bytes; `None` where there are none.
    pub fn new(bytes: u32) -> Option<Quantum>
        ensures in_range { IsSome result ↔ IsQuantum bytes }
        ensures value { IfSome result (λ n. n ≡ bytes) }
    {
        if bytes >= 1 {
            Some(Quantum { bytes })
        } else {
            None
        }
    }

    /// The number of bytes.
    pub fn bytes(self) -> u32
        ensures value { result ≡ self }
        ensures in_range { IsQuantum result }
    {
        self.bytes
    }
}
