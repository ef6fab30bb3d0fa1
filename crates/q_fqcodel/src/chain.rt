//! The packets of one flow among the nodes of all: one appended, or the first taken.
ghost use Rattle.std.specs.Prelude.{ℕ, ◌≡◌, ◌≢◌, ◌+◌, ◌<◌, ◌≤◌, ◌%◌, [], ◌∷◌, ◌++◌, ◌^◌, Some, drop, option_map, slice_get};
ghost use Rattle.q_packet.specs.declared.stamped.Stamped.{Stamped};
ghost use Rattle.q_fqcodel.specs.Chain.{queue_in, IsList, KeepsOthers};
ghost use Rattle.q_fqcodel.specs.Nodes.{used};

use crate::flow_list::FlowList;
use crate::nodes::Nodes;
use q_packet::{KeptPacket, Moment};

/// Appends a packet, queued at the time `now`, to the list of its flow, however many flows there are.
#[inline(always)]
pub(crate) fn append(
    nodes: &mut Nodes,
    list: FlowList,
    packet: &KeptPacket,
    now: Moment,
) -> FlowList
    requires room { nodes.old.count < nodes.old.slab.capacity }
    requires linked { (flows : ℕ) × IsList (used nodes.old) flows (packet.now.hash % flows) list }
    requires few { list.count < 2 ^ 32 }
    ensures queue { queue_in (used nodes.new) result ≡ queue_in (used nodes.old) list ++ record { packet = packet.now; at = now } ∷ [] }
    ensures linked { (flows : ℕ) → IsList (used nodes.old) flows (packet.now.hash % flows) list
        → IsList (used nodes.new) flows (packet.now.hash % flows) result }
    ensures others { (flows : ℕ) → IsList (used nodes.old) flows (packet.now.hash % flows) list
        → KeepsOthers flows (packet.now.hash % flows) (used nodes.old) (used nodes.new) }
    ensures count { result.count ≡ list.count + 1 }
    ensures head { list.count ≢ 0 → result.head ≡ list.head }
    ensures bytes { result.bytes ≡ list.bytes + packet.now.len }
    ensures len { nodes.new.count ≡ nodes.old.count + 1 }
    ensures capacity { nodes.new.slab.capacity ≡ nodes.old.slab.capacity }
{
    let len = packet.stored.len;
    let key = nodes.claim(packet, now);
    if list.count == 0 {
        return FlowList {
            head: key,
            tail: key,
            count: 1,
            bytes: len as u64,
        };
    }
    nodes.link(list.tail, key);
    FlowList {
        head: list.head,
        tail: key,
        count: list.count + 1,
        bytes: list.bytes + len as u64,
    }
}

/// Takes the first packet out of the list of a flow, without returning it.
#[inline(always)]
pub(crate) fn drop_head(nodes: &mut Nodes, list: FlowList) -> FlowList
    requires some { 0 < list.count }
    requires few { list.count ≤ nodes.old.count }
    requires linked { (flows : ℕ) × (flow : ℕ) × IsList (used nodes.old) flows flow list }
    ensures queue { queue_in (used nodes.new) result ≡ drop 1 (queue_in (used nodes.old) list) }
    ensures linked { (flows flow : ℕ) → IsList (used nodes.old) flows flow list → IsList (used nodes.new) flows flow result }
    ensures others { (flows flow : ℕ) → IsList (used nodes.old) flows flow list
        → KeepsOthers flows flow (used nodes.old) (used nodes.new) }
    ensures count { result.count + 1 ≡ list.count }
    ensures tail { result.tail ≡ list.tail }
    ensures bytes { result.bytes ≤ list.bytes }
    ensures len { nodes.new.count + 1 ≡ nodes.old.count }
    ensures capacity { nodes.new.slab.capacity ≡ nodes.old.slab.capacity }
{
    let node = nodes.at(list.head);
    let packet = &node.packet;
    let len = packet.stored.len;
    let next = node.next;
    nodes.vacate(list.head);
    FlowList {
        head: next,
        tail: list.tail,
        count: list.count - 1,
        bytes: list.bytes - len as u64,
    }
}

/// Takes the first packet out of the list of a flow, into `out`: it is copied once.
#[inline(always)]
pub(crate) fn take_head_into(nodes: &mut Nodes, list: FlowList, out: &mut KeptPacket) -> FlowList
    requires some { 0 < list.count }
    requires few { list.count ≤ nodes.old.count }
    requires linked { (flows : ℕ) × (flow : ℕ) × IsList (used nodes.old) flows flow list }
    ensures given { Some out.new ≡ option_map (λ (s : Stamped). s.packet) (slice_get (queue_in (used nodes.old) list) 0) }
    ensures queue { queue_in (used nodes.new) result ≡ drop 1 (queue_in (used nodes.old) list) }
    ensures linked { (flows flow : ℕ) → IsList (used nodes.old) flows flow list → IsList (used nodes.new) flows flow result }
    ensures others { (flows flow : ℕ) → IsList (used nodes.old) flows flow list
        → KeepsOthers flows flow (used nodes.old) (used nodes.new) }
    ensures count { result.count + 1 ≡ list.count }
    ensures tail { result.tail ≡ list.tail }
    ensures bytes { result.bytes + out.new.len ≡ list.bytes }
    ensures len { nodes.new.count + 1 ≡ nodes.old.count }
    ensures capacity { nodes.new.slab.capacity ≡ nodes.old.slab.capacity }
{
    let (next, len) = nodes.release_into(list.head, out);
    FlowList {
        head: next,
        tail: list.tail,
        count: list.count - 1,
        bytes: list.bytes - len as u64,
    }
}
