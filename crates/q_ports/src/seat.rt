ghost use Rattle.std.specs.Prelude.{◌≡◌, ◌<◌, ◌≤◌, ◌-◌};
ghost use Rattle.q_ports.specs.Held.{held, joined};

use std::marker::Model;
use std::sync::ledger::{Ledger, Share};

/// A permit: the right to let packets arrive at a device, and a count of what was let in with it.
///
/// All permits of one book have 65 parts together, and each has at least one. In contracts a permit is the record `Held`: its parts, and the
/// packets and bytes that were let in with it. Its type says of which book it is: `P` is the book's ledger of packets, and `B` that of bytes.
#[derive(Drop)]
pub struct Seat<P: Ledger, B: Ledger> {
    pub(crate) parts: u64,
    pub(crate) packets: Share<P>,
    pub(crate) bytes: Share<B>,
}

impl<P: Ledger, B: Ledger> Model for Seat<P, B> {
    ghost use Rattle.std.specs.Prelude.{◌≡◌, ◌≤◌};
    ghost use Rattle.q_ports.specs.Held.{Held, held};

    ghost Value = { Held };

    ghost view = { λ s. held s.parts s.packets.amount s.bytes.amount };

    ghost invariant = { λ s. (s.packets.parts ≡ s.parts) × (s.bytes.parts ≡ s.parts) × (1 ≤ s.parts) };
}

impl<P: Ledger, B: Ledger> Seat<P, B> {
    /// Returns how many of the book's 65 parts the permit has: at least one, and all 65 if it is the whole permit.
    pub fn parts(&self) -> u64
        ensures parts { result ≡ self.now.parts }
        ensures some { 1 ≤ result }
    {
        self.parts
    }

    /// Takes one part off, and returns it as a permit with which nothing was let in.
    pub fn split(&mut self) -> Seat<P, B>
        requires { 1 < self.old.parts }
        ensures left { self.new ≡ held (self.old.parts - 1) self.old.packets self.old.bytes }
        ensures part { result ≡ held 1 0 0 }
    {
        self.parts -= 1;
        Seat {
            parts: 1,
            packets: self.packets.split_off(1, 0),
            bytes: self.bytes.split_off(1, 0),
        }
    }

    /// Takes in another permit of the same book: its parts, and what was let in with it.
    pub fn join(&mut self, other: Seat<P, B>)
        requires parts { P.parts ≡ 65 }
        ensures { self.new ≡ joined self.old other }
    {
        let Seat {
            parts,
            packets,
            bytes,
        } = other;
        self.packets.merge(packets);
        self.bytes.merge(bytes);
        self.parts += parts;
    }
}
