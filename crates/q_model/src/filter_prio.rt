ghost use Rattle.std.specs.Prelude.{◌≡◌, ◌↔◌, IfSome, IsSome};
ghost use Rattle.q_model.specs.Numbers.{IsFilterPrio};

use std::marker::Model;

/// The priority of a filter, 1 to 65535; a lower one is asked first (tc(8), `prio`).
///
/// A contract sees it as that number.
#[derive(Clone, Copy, PartialEq, Eq, Debug)]
pub struct FilterPrio {
    number: u16,
}

impl Model for FilterPrio {
    ghost use Rattle.std.specs.Prelude.{ℕ};
    ghost use Rattle.q_model.specs.Numbers.{IsFilterPrio};

    ghost Value = { ℕ };

    ghost view = { λ n. n.number };

    ghost invariant = { λ n. IsFilterPrio n.number };

    ghost inverse = { λ n. record { number = n } };
}

impl FilterPrio {
    /// The priority that this is; `None` where it is 0.
    pub fn new(number: u16) -> Option<FilterPrio>
        ensures in_range { IsSome result ↔ IsFilterPrio number }
        ensures value { IfSome result (λ n. n ≡ number) }
    {
        if number >= 1 {
            Some(FilterPrio { number })
        } else {
            None
        }
    }

    /// The number.
    pub fn number(self) -> u16
        ensures value { result ≡ self }
        ensures in_range { IsFilterPrio result }
    {
        self.number
    }
}
