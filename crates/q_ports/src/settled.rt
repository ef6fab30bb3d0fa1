ghost use Rattle.std.specs.Prelude.{◌≡◌};

use crate::seat::Seat;
use q_device::Totals as Share;
use std::marker::Model;
use std::sync::ledger::Ledger;

/// What is left of a drain once it has taken in all that its ports placed: the whole permit.
///
/// In contracts it is the sum of what the ports placed, in packets and bytes.
#[derive(Drop)]
pub struct Settled<P: Ledger, B: Ledger> {
    pub(crate) seat: Seat<P, B>,
    pub(crate) share: Share,
}

impl<P: Ledger, B: Ledger> Model for Settled<P, B> {
    ghost use Rattle.std.specs.Prelude.{◌≡◌};
    ghost use Rattle.q_model.specs.declared.totals.Totals.{Totals};
    ghost use Rattle.q_ports.specs.Held.{whole};

    ghost Value = { Totals };

    ghost view = { λ s. s.share };

    ghost invariant = { λ s. s.seat ≡ whole s.share };
}

impl<P: Ledger, B: Ledger> Settled<P, B> {
    /// Returns how many packets and bytes were let in with the permit, which is what all ports placed together.
    pub fn share(&self) -> Share
        ensures { result ≡ self.now }
    {
        self.share
    }
}
