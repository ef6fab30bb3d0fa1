//! What CoDel asks of a queue that it is lent.
ghost use Rattle.std.specs.Prelude.{◌≡◌, ◌<◌, ◌≤◌, List, Some, option_map, slice_get, drop, take};
ghost use Rattle.q_packet.specs.Totals.{count, size};
ghost use Rattle.q_packet.specs.declared.stamped.Stamped.{Stamped};
ghost use Rattle.q_codel.specs.Front.{front_of};
ghost use Rattle.q_codel.specs.Losses.{AreLost};

use crate::front::Front;
use crate::sink::Sink;
use q_packet::{Cause, KeptPacket, Stamped};

/// A queue that CoDel takes from: a list of stamped packets, front first.
///
/// `packets` is that list. `keeps` relates a queue before and after calls of `take`: it says what they leave alone, so
/// that the owner of a larger whole, of which the queue is a view, still knows the rest of it.
pub trait Queue {
    ghost packets: { Self → List Stamped };

    ghost keeps: { Self → Self → Type 0 };

    /// The packet in front; `None` where the queue is empty.
    fn head(&self) -> Option<Stamped>
        ensures { result ≡ slice_get (packets self.now) 0 };

    /// Takes the packet in front; `None` where the queue is empty.
    fn take(&mut self) -> Option<Stamped>
        ensures front { result ≡ slice_get (packets self.old) 0 }
        ensures rest { packets self.new ≡ drop 1 (packets self.old) }
        ensures kept { keeps self.old self.new };

    /// What CoDel reads of the packet in front; `None` where the queue is empty. No packet is copied.
    fn front(&self) -> Option<Front>
        ensures { result ≡ option_map front_of (slice_get (packets self.now) 0) }
    {
        let stamped = self.head()?;
        Some(Front {
            at: stamped.at,
            len: stamped.packet.len,
            ecn: stamped.packet.ecn,
        })
    }

    /// Takes the packet in front, which is there, into `out`: it is copied once.
    fn take_into(&mut self, out: &mut KeptPacket)
        requires { 0 < count (packets self.old) }
        ensures given { Some out.new ≡ option_map (λ (s : Stamped). s.packet) (slice_get (packets self.old) 0) }
        ensures rest { packets self.new ≡ drop 1 (packets self.old) }
        ensures kept { keeps self.old self.new }
    {
        let Some(stamped) = self.take() else {
            unreachable!()
        };
        *out = KeptPacket::of(&stamped.packet);
    }

    /// Loses the packet in front, which is there: `sink` gets it, with this cause.
    fn lose<S: Sink>(&mut self, cause: Cause, sink: &mut S)
        requires some { 0 < count (packets self.old) }
        requires room { 1 ≤ (S.state sink.old).room }
        ensures rest { packets self.new ≡ drop 1 (packets self.old) }
        ensures lost { AreLost cause (take 1 (packets self.old)) (S.state sink.old) (S.state sink.new) }
        ensures kept { keeps self.old self.new }
        ensures sink_kept { S.keeps sink.old sink.new }
    {
        let Some(stamped) = self.take() else {
            unreachable!()
        };
        sink.lost(stamped.packet, cause);
    }

    /// The bytes of all its packets.
    fn bytes(&self) -> u64
        ensures { result ≡ size (packets self.now) };

    /// The number of its packets.
    fn count(&self) -> u64
        ensures { result ≡ count (packets self.now) };

    ghost keeps_same: { (q : Self) → keeps q q };

    ghost keeps_on: { (q : Self) (r : Self) (s : Self) → keeps q r → keeps r s → keeps q s };
}
