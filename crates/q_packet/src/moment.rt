ghost use Rattle.std.specs.Prelude.{◌≡◌, ◌≤◌, ◌^◌, ◌↔◌, ℕ, IfSome, IsSome};

use std::marker::Model;

/// A time, in whole nanoseconds since an instant that the caller chooses, from 0 to 2^62.
///
/// A contract sees a time as that number.
#[derive(Clone, Copy, PartialEq, Eq, PartialOrd, Ord, Debug)]
pub struct Moment {
    nanoseconds: u64,
}

impl Model for Moment {
    ghost Value = { ℕ };

    ghost view = { λ m. m.nanoseconds };

    ghost invariant = { λ m. m.nanoseconds ≤ 2 ^ 62 };

    ghost inverse = { λ n. record { nanoseconds = n } };
}

impl Moment {
    /// The latest time, in nanoseconds.
    pub const MAX: u64 = 4611686018427387904;

    /// The earliest time, 0 nanoseconds, at which a device's clock begins.
    pub const fn zero() -> Moment
        ensures { result ≡ 0 }
    {
        Moment { nanoseconds: 0 }
    }

    /// The time of `ns` nanoseconds; `None` past [`Moment::MAX`].
    pub fn new(ns: u64) -> Option<Moment>
        ensures in_range { IsSome result ↔ (ns ≤ 2 ^ 62) }
        ensures value { IfSome result (λ m. m ≡ ns) }
    {
        if ns <= Moment::MAX {
            Some(Moment { nanoseconds: ns })
        } else {
            None
        }
    }

    /// This time in nanoseconds.
    pub fn ns(self) -> u64
        ensures value { result ≡ self }
        ensures in_range { result ≤ 2 ^ 62 }
    {
        self.nanoseconds
    }
}
