//! The row of counters that each node has, and what an arrival, a departure and a drop change in it.
//!
//! Every change here keeps the balance of a row: what arrived is what was sent, refused, dropped and is queued.
ghost use Rattle.std.specs.Prelude.{◌≡◌, ◌<◌, ◌≤◌, ◌+◌, ◌^◌};
ghost use Rattle.q_model.specs.Conserved.{IsBalanced};
ghost use Rattle.q_model.specs.Tally.{no_totals, with_packet};
ghost use Rattle.q_tree.specs.arrival.Arrivals.{CanCount, IsLostOf, minus, plus, with_arrival};
ghost use Rattle.q_tree.specs.commands.Editing.{CanDrop, with_dropped};
ghost use Rattle.q_tree.specs.departure.AskSteps.{CanShow, signals_of, with_shown};
ghost use Rattle.q_tree.specs.departure.PopSteps.{IsAmong, with_sent};

use crate::arrival::outcome::Outcome;
use crate::counters::Counters;
use crate::departure::shown::Shown;
use crate::departure::signals::Signals;
use q_model::Totals;
use q_packet::KeptPacket;

/// No packet.
pub(crate) const NOTHING: Totals = Totals {
    packets: 0,
    bytes: 0,
};

/// One packet.
pub(crate) fn one_packet(packet: &KeptPacket) -> Totals
    ensures { result ≡ with_packet no_totals packet.now }
{
    Totals {
        packets: 1,
        bytes: u64::from(packet.stored.len),
    }
}

/// Books a packet that has arrived, with all that was lost for it at the node or below.
#[inline(never)]
pub(crate) fn book_outcome(row: &mut Counters, packet: &KeptPacket, outcome: &Outcome)
    requires balanced { IsBalanced row.old }
    requires room { CanCount row.old.arrived packet.now }
    requires lost { IsLostOf packet.now outcome.now row.old.queued }
    ensures { row.new ≡ with_arrival packet.now outcome.now row.old }
{
    row.arrived_packets += 1;
    row.arrived_bytes += u64::from(packet.stored.len);
    row.refused_packets += outcome.refused.packets;
    row.refused_bytes += outcome.refused.bytes;
    row.dropped_packets += outcome.dropped.packets;
    row.dropped_bytes += outcome.dropped.bytes;
    row.queued_packets = row.queued_packets + 1
        - (outcome.refused.packets + outcome.dropped.packets);
    row.queued_bytes = row.queued_bytes + u64::from(packet.stored.len)
        - (outcome.refused.bytes + outcome.dropped.bytes);
}

/// Books a packet that was queued and is handed to the node above.
pub(crate) fn book_sent(row: &mut Counters, packet: &KeptPacket)
    requires balanced { IsBalanced row.old }
    requires among { IsAmong packet.now row.old.queued }
    requires room { CanCount row.old.sent packet.now }
    ensures { row.new ≡ with_sent packet.now row.old }
{
    let len = u64::from(packet.stored.len);
    row.sent_packets += 1;
    row.sent_bytes += len;
    row.queued_packets -= 1;
    row.queued_bytes -= len;
}

/// Books what asking the node came to: what CoDel dropped was queued.
#[inline(always)]
pub(crate) fn book_shown(row: &mut Counters, shown: &Shown, signals: &Signals)
    requires balanced { IsBalanced row.old }
    requires room { CanShow shown.now row.old }
    requires told { signals.now ≡ signals_of shown.now }
    ensures { row.new ≡ with_shown shown.now row.old }
{
    // Mostly nothing was dropped or marked, and nothing is written then.
    if shown.is_quiet() {
        return;
    }
    book_signals(row, signals);
}

// Books what was dropped and marked.
#[cold]
#[inline(never)]
fn book_signals(row: &mut Counters, signals: &Signals)
    requires packets { signals.now.dropped.packets ≤ row.old.queued.packets }
    requires bytes { signals.now.dropped.bytes ≤ row.old.queued.bytes }
    requires marked_packets { row.old.marked.packets + signals.now.marked.packets < 2 ^ 64 }
    requires marked_bytes { row.old.marked.bytes + signals.now.marked.bytes < 2 ^ 64 }
    requires dropped_packets { row.old.dropped.packets + signals.now.dropped.packets < 2 ^ 64 }
    requires dropped_bytes { row.old.dropped.bytes + signals.now.dropped.bytes < 2 ^ 64 }
    ensures { row.new ≡ record row.old { dropped = plus row.old.dropped signals.now.dropped; marked = plus row.old.marked signals.now.marked; queued = minus row.old.queued signals.now.dropped } }
{
    row.dropped_packets += signals.dropped.packets;
    row.dropped_bytes += signals.dropped.bytes;
    row.queued_packets -= signals.dropped.packets;
    row.queued_bytes -= signals.dropped.bytes;
    row.marked_packets += signals.marked.packets;
    row.marked_bytes += signals.marked.bytes;
}

/// Books packets that were queued and are dropped.
pub(crate) fn book_dropped(row: &mut Counters, lost: Totals)
    requires balanced { IsBalanced row.old }
    requires room { CanDrop lost row.old }
    ensures { row.new ≡ with_dropped lost row.old }
{
    row.dropped_packets += lost.packets;
    row.dropped_bytes += lost.bytes;
    row.queued_packets -= lost.packets;
    row.queued_bytes -= lost.bytes;
}

/// Packets and bytes of both together.
pub(crate) fn sum(a: Totals, b: Totals) -> Totals
    requires packets { a.packets + b.packets < 2 ^ 64 }
    requires bytes { a.bytes + b.bytes < 2 ^ 64 }
    ensures { result ≡ plus a b }
{
    Totals {
        packets: a.packets + b.packets,
        bytes: a.bytes + b.bytes,
    }
}

/// Packets and bytes of the first without the second.
pub(crate) fn difference(a: Totals, b: Totals) -> Totals
    requires packets { b.packets ≤ a.packets }
    requires bytes { b.bytes ≤ a.bytes }
    ensures { result ≡ minus a b }
{
    Totals {
        packets: a.packets - b.packets,
        bytes: a.bytes - b.bytes,
    }
}
