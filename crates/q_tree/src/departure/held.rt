ghost use Rattle.std.specs.Prelude.{◌≡◌, IsSome, None, Some, is_some, option_map, unwrap_or};
ghost use Rattle.q_model.specs.Pop.{pop};
ghost use Rattle.q_model.specs.Since.{at_hand_since};
ghost use Rattle.q_model.specs.Work.{booked};
ghost use Rattle.q_tree.specs.departure.Holding.{held_with, packet_held};
ghost use Rattle.q_tree.specs.Kept.{kept};
ghost use Rattle.q_packet.specs.declared.stamped.Stamped.{Stamped};

use crate::node::Node;
use q_packet::{KeptPacket, Moment, SOME_KEPT};
use std::marker::Model;

/// The packet that a node has dequeued in order to show it, if it holds one, and when it arrived.
///
/// It is a flag and a place: a packet is written straight into the place, and nothing is cleared when the packet leaves. A contract
/// sees the packet with the time at which it arrived, or `None`.
#[derive(Drop)]
pub(crate) struct Held {
    /// Whether the place has a packet that is held.
    pub(crate) holds: bool,
    /// When the packet arrived.
    pub(crate) since: Moment,
    pub(crate) place: KeptPacket,
}

impl Model for Held {
    ghost use Rattle.std.specs.Prelude.{Option, Some, None, if◌then◌else◌};
    ghost use Rattle.q_packet.specs.declared.stamped.Stamped.{Stamped};

    ghost Value = { Option Stamped };

    ghost view = { λ h. if h.holds then Some (record { packet = h.place; at = h.since }) else None };
}

impl Held {
    /// No packet is held.
    pub(crate) fn nothing() -> Held
        ensures { result ≡ None }
    {
        Held {
            holds: false,
            since: Moment::zero(),
            place: SOME_KEPT,
        }
    }

    /// Whether a packet is held.
    #[inline(always)]
    pub(crate) fn is_some(&self) -> bool
        ensures { result ≡ is_some self.now }
    {
        self.holds
    }

    /// The packet that is held.
    #[inline(always)]
    pub(crate) fn packet(&self) -> Option<KeptPacket>
        ensures { result ≡ option_map (λ (s : Stamped). s.packet) self.now }
    {
        if self.holds {
            return Some(self.place);
        }
        None
    }

    /// When the packet arrived that is held.
    #[inline(always)]
    pub(crate) fn arrival(&self) -> Option<Moment>
        ensures { result ≡ option_map (λ (s : Stamped). s.at) self.now }
    {
        if self.holds {
            return Some(self.since);
        }
        None
    }

    /// Dequeues the packet that this child has at hand, and holds it. When it arrived is known as long as the child has it.
    #[inline(always)]
    pub(crate) fn hold(&mut self, child: &mut Node)
        requires { IsSome (pop child.old).shown }
        ensures held { self.new ≡ held_with (pop child.old).shown (unwrap_or (at_hand_since child.old) 0) }
        ensures after { child.new ≡ booked kept child.old (pop child.old).after }
        ensures arrived { child.new.memory.counts.arrived ≡ child.old.memory.counts.arrived }
    {
        self.since = child.at_hand_since().unwrap_or(Moment::zero());
        child.dequeue_at_hand(&mut self.place);
        self.holds = true;
    }

    /// The packet that is held leaves: it is copied whole into `out`.
    #[inline(always)]
    pub(crate) fn release(&mut self, out: &mut KeptPacket)
        requires { IsSome self.old }
        ensures packet { Some out.new ≡ packet_held self.old }
        ensures none { self.new ≡ None }
    {
        *out = self.place;
        self.holds = false;
    }
}
