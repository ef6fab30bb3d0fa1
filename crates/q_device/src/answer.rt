ghost use Rattle.std.specs.Prelude.{◌≡◌};
ghost use Rattle.q_model.specs.declared.fate.Fate.{Fate as Became};

use q_model::Fate;

/// What [`crate::Device::arrive_many`] writes into a place of the caller about the fate of a packet: the [`Fate`] itself, or a number.
pub trait Answer: Copy {
    /// The value that stands for a fate, in contracts.
    ghost answer: { Became → Self };

    /// Returns the value that stands for a fate.
    fn of(fate: Fate) -> Self
        ensures { result ≡ answer fate };
}

impl Answer for Fate {
    ghost answer = { λ fate. fate };

    #[inline(always)]
    fn of(fate: Fate) -> Fate {
        fate
    }
}

/// The number of the cause of the loss, or 0 if the packet is kept.
impl Answer for u8 {
    ghost use Rattle.q_device.specs.device.Answers.{fate_number};

    ghost answer = { fate_number };

    #[inline(always)]
    fn of(fate: Fate) -> u8 {
        match fate {
            Fate::Kept => 0,
            Fate::Lost(cause) => cause.number(),
        }
    }
}
