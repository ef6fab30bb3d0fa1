ghost use Rattle.std.specs.Prelude.{◌≡◌, ◌↔◌, IfSome, IsSome};
ghost use Rattle.q_model.specs.Options.{IsPrio};

use std::marker::Model;

/// The options of a prio (tc-prio(8)). A contract sees them as the record `PrioSettings` of the fields.
///
/// There are 2 to 16 bands, and each priority has one of them: code that would leave other numbers there is refused.
#[derive(Clone, Copy, PartialEq, Eq, Debug)]
pub struct PrioOptions {
    /// The number of bands, 2 to 16.
    pub bands: u8,
    /// The band, from 0, of each priority.
    pub priomap: [u8; 16],
}

impl Model for PrioOptions {
    ghost use Rattle.q_model.specs.Options.{PrioSettings, IsPrio};

    ghost Value = { PrioSettings };

    ghost view = { λ o. record { bands = o.bands; priomap = o.priomap } };

    ghost invariant = { λ o. IsPrio (record { bands = o.bands; priomap = o.priomap }) };

    ghost inverse = { λ s. record { bands = s.bands; priomap = s.priomap } };
}

impl PrioOptions {
    /// The options with these fields; `None` where there are fewer than 2 bands or more than 16, or the band of a priority is
    /// none of them.
    pub fn new(bands: u8, priomap: [u8; 16]) -> Option<PrioOptions>
        ensures in_range { IsSome result ↔ IsPrio (record { bands = bands; priomap = priomap }) }
        ensures value { IfSome result (λ o. o ≡ record { bands = bands; priomap = priomap }) }
    {
        if bands >= 2 && bands <= 16 && priomap.iter().all(|band| *band < bands) {
            Some(PrioOptions { bands, priomap })
        } else {
            None
        }
    }

    /// Each field is within its range, which the type keeps. It does nothing: its clause is for the laws of other crates.
    pub fn ranges(&self)
        ensures { IsPrio self.now }
    {
        let _ = &self.bands;
    }
}
