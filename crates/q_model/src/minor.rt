ghost use Rattle.std.specs.Prelude.{◌≡◌, ◌↔◌, IfSome, IsSome};
ghost use Rattle.q_model.specs.Numbers.{IsMinor};

use std::marker::Model;

/// The minor number of a class, 1 to 0xffff (tc(8), "NAMING").
///
/// A contract sees it as that number.
#[derive(Clone, Copy, PartialEq, Eq, Debug)]
pub struct Minor {
    number: u16,
}

impl Model for Minor {
    ghost use Rattle.std.specs.Prelude.{ℕ};
    ghost use Rattle.q_model.specs.Numbers.{IsMinor};

    ghost Value = { ℕ };

    ghost view = { λ n. n.number };

    ghost invariant = { λ n. IsMinor n.number };

    ghost inverse = { λ n. record { number = n } };
}

impl Minor {
    /// The minor number that this is; `None` where it is 0.
    pub fn new(number: u16) -> Option<Minor>
        ensures in_range { IsSome result ↔ IsMinor number }
        ensures value { IfSome result (λ n. n ≡ number) }
    {
        if number >= 1 {
            Some(Minor { number })
        } else {
            None
        }
    }

    /// The number.
    pub fn number(self) -> u16
        ensures value { result ≡ self }
        ensures in_range { IsMinor result }
    {
        self.number
    }
}
