ghost use Rattle.std.specs.Prelude.{◌≡◌, ◌↔◌, IfSome, IsSome};
ghost use Rattle.q_model.specs.Numbers.{IsHandle};

use std::marker::Model;

/// The major number of a qdisc's handle, 1 to 0xfffe (tc(8), "NAMING"; 0xffff is that of `root`).
///
/// A contract sees it as that number.
#[derive(Clone, Copy, PartialEq, Eq, Debug)]
pub struct Handle {
    major: u16,
}

impl Model for Handle {
    ghost use Rattle.std.specs.Prelude.{ℕ};
    ghost use Rattle.q_model.specs.Numbers.{IsHandle};

    ghost Value = { ℕ };

    ghost view = { λ n. n.major };

    ghost invariant = { λ n. IsHandle n.major };

    ghost inverse = { λ n. record { major = n } };
}

impl Handle {
    /// The handle with this major number; `None` where it is 0 or 0xffff.
    pub fn new(major: u16) -> Option<Handle>
        ensures in_range { IsSome result ↔ IsHandle major }
        ensures value { IfSome result (λ n. n ≡ major) }
    {
        if major >= 1 && major <= 0xfffe {
            Some(Handle { major })
        } else {
            None
        }
    }

    /// The major number.
    pub fn major(self) -> u16
        ensures value { result ≡ self }
        ensures in_range { IsHandle result }
    {
        self.major
    }
}
