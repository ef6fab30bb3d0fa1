ghost use Rattle.std.specs.Prelude.{◌≡◌};

/// How a script went.
#[derive(Clone, Copy, PartialEq, Eq, Debug)]
pub enum Outcome {
    /// No line had a fault or was refused.
    Clean,
    /// A line had a fault or was refused.
    Refused,
}

impl Outcome {
    /// The exit status of a program whose script went so.
    pub fn status(self) -> u8
        ensures clean { self ≡ Outcome.Clean → result ≡ 0 }
        ensures refused { self ≡ Outcome.Refused → result ≡ 1 }
    {
        match self {
            Outcome::Clean => 0,
            Outcome::Refused => 1,
        }
    }
}
