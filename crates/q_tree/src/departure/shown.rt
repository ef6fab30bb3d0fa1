ghost use Rattle.std.specs.Prelude.{◌≡◌, ◌<◌, ◌≤◌, ◌+◌, ◌^◌, IfSome, IsSomeAnd, None, Some, is_some, true};
ghost use Rattle.q_tree.specs.arrival.Arrivals.{plus};
ghost use Rattle.q_tree.specs.departure.AskSteps.{no_signals, signals_of};
ghost use Rattle.q_tree.specs.departure.Shown.{length_of};

use crate::departure::signals::{NO_SIGNALS, Signals};
use q_packet::KeptPacket;
use std::marker::Model;
use std::snapshot::Snapshot;

/// What asking a node came to: the packet that it shows, and what CoDel dropped and marked for that.
///
/// It goes up from node to node in registers: the packet stays where it is, and what was dropped and marked is in a place of the
/// caller's, since mostly nothing was, and then nobody reads it. A contract sees all of it.
#[derive(Drop)]
pub(crate) struct Shown {
    /// The packet's length in bytes, 0 for none.
    len: u16,
    /// Nothing was dropped, and nothing was marked.
    is_quiet: bool,
    packet: Snapshot<Option<KeptPacket>>,
    signals: Snapshot<Signals>,
}

impl Model for Shown {
    ghost use Rattle.std.specs.Prelude.{◌≡◌, ◌≤◌, true, IfSome};
    ghost use Rattle.q_packet.specs.Descriptor.{Descriptor};
    ghost use Rattle.q_tree.specs.departure.AskSteps.{no_signals};
    ghost use Rattle.q_tree.specs.departure.Shown as specs;

    ghost Value = { specs.Shown };

    ghost view = { λ s. record { packet = s.packet.value; dropped = s.signals.value.dropped; marked = s.signals.value.marked } };

    ghost invariant = { λ s.
        (s.len ≡ specs.length_of s.packet.value)
        × (IfSome s.packet.value (λ (p : Descriptor). 1 ≤ p.len))
        × (s.is_quiet ≡ true → s.signals.value ≡ no_signals)
        × (s.signals.value ≡ no_signals → s.is_quiet ≡ true) };
}

impl Shown {
    /// A node shows this packet, or none, after so much was dropped and marked.
    #[inline(always)]
    pub(crate) fn new(packet: &Option<KeptPacket>, signals: &Signals) -> Shown
        ensures { result ≡ record { packet = packet.now; dropped = signals.now.dropped; marked = signals.now.marked } }
    {
        Shown {
            len: len_of(packet),
            is_quiet: signals.is_nothing(),
            packet: Snapshot::of(packet),
            signals: Snapshot::of(signals),
        }
    }

    /// A node sends this packet, after so much was dropped and marked.
    #[inline(always)]
    pub(crate) fn sending(packet: &KeptPacket, signals: &Signals) -> Shown
        ensures { result ≡ record { packet = Some packet.now; dropped = signals.now.dropped; marked = signals.now.marked } }
    {
        Shown {
            len: packet.stored.len,
            is_quiet: signals.is_nothing(),
            packet: Snapshot::of(&Some(*packet)),
            signals: Snapshot::of(signals),
        }
    }

    /// A node sends this packet, of which the length is known, and nothing was dropped or marked for that.
    #[inline(always)]
    pub(crate) fn quiet(packet: &KeptPacket, len: u16) -> Shown
        requires len { len ≡ packet.now.len }
        requires positive { 1 ≤ len }
        ensures { result ≡ record { packet = Some packet.now; dropped = no_signals.dropped; marked = no_signals.marked } }
    {
        Shown {
            len,
            is_quiet: true,
            packet: Snapshot::of(&Some(*packet)),
            signals: Snapshot::of(&NO_SIGNALS),
        }
    }

    /// A packet that was at hand, or none: nobody was asked.
    #[inline(always)]
    pub(crate) fn at_hand(packet: &Option<KeptPacket>) -> Shown
        ensures { result ≡ record { packet = packet.now; dropped = no_signals.dropped; marked = no_signals.marked } }
    {
        Shown::new(packet, &NO_SIGNALS)
    }

    /// What asking one more node came to: it has the packet. What was dropped and marked so far is counted on.
    #[inline(always)]
    pub(crate) fn then(self, next: Shown, so_far: &mut Signals, signals: &Signals) -> Shown
        requires so_far { so_far.old ≡ signals_of self }
        requires signals { signals.now ≡ signals_of next }
        requires dropped_packets { self.dropped.packets + next.dropped.packets < 2 ^ 64 }
        requires dropped_bytes { self.dropped.bytes + next.dropped.bytes < 2 ^ 64 }
        requires marked_packets { self.marked.packets + next.marked.packets < 2 ^ 64 }
        requires marked_bytes { self.marked.bytes + next.marked.bytes < 2 ^ 64 }
        ensures asked { result ≡ record { packet = next.packet; dropped = plus self.dropped next.dropped; marked = plus self.marked next.marked } }
        ensures signals { so_far.new ≡ signals_of result }
    {
        if next.is_quiet {
            return Shown {
                len: next.len,
                packet: next.packet,
                ..self
            };
        }
        so_far.add(signals);
        Shown {
            len: next.len,
            is_quiet: false,
            packet: next.packet,
            signals: Snapshot::of(so_far),
        }
    }

    /// The same with another packet, or none.
    #[inline(always)]
    pub(crate) fn showing(self, packet: &Option<KeptPacket>) -> Shown
        ensures { result ≡ record self { packet = packet.now } }
    {
        Shown {
            len: len_of(packet),
            packet: Snapshot::of(packet),
            ..self
        }
    }

    /// The packet's length in bytes; `None` where none is shown.
    #[inline(always)]
    pub(crate) fn packet_len(&self) -> Option<u16>
        ensures none { result ≡ None → self.now.packet ≡ None }
        ensures some { IfSome result (λ len. IsSomeAnd self.now.packet (λ p. p.len ≡ len)) }
    {
        if self.len == 0 {
            return None;
        }
        Some(self.len)
    }

    /// Whether a packet is shown.
    #[inline(always)]
    pub(crate) fn has_packet(&self) -> bool
        ensures { result ≡ is_some self.now.packet }
    {
        self.len != 0
    }

    /// Whether nothing was dropped and nothing was marked.
    #[inline(always)]
    pub(crate) fn is_quiet(&self) -> bool
        ensures means { result ≡ true → signals_of self.now ≡ no_signals }
        ensures comes { signals_of self.now ≡ no_signals → result ≡ true }
    {
        self.is_quiet
    }
}

// The length of a packet, 0 for none.
#[inline(always)]
fn len_of(packet: &Option<KeptPacket>) -> u16
    ensures len { result ≡ length_of packet.now }
    ensures positive { IfSome packet.now (λ p. 1 ≤ p.len) }
{
    match packet {
        Some(packet) => packet.stored.len,
        None => 0,
    }
}
