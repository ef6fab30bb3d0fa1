ghost use Rattle.std.specs.Prelude.{◌≡◌};
ghost use Rattle.q_codel.specs.declared.loss.Loss.{Loss};

use q_codel::Loss as Lost;

/// What [`crate::Device::reap_many`] writes of a loss into a place of the caller: the whole [`Lost`], or as much of it as the caller needs.
pub trait ToldLoss: Copy {
    /// What it says of a loss.
    ghost told: { Loss → Self };

    /// The same of a loss that is handed out.
    fn tell(lost: &Lost) -> Self
        ensures { result ≡ told lost.now };
}

impl ToldLoss for Lost {
    ghost told = { λ lost. lost };

    #[inline(always)]
    fn tell(lost: &Lost) -> Lost {
        *lost
    }
}
