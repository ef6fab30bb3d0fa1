//! The packets of all flows in one slab, so that memory is needed for the packets that are queued and not for each flow's longest queue.
ghost use Rattle.std.specs.Prelude.{ℕ, ◌≡◌, ◌≢◌, ◌+◌, ◌-◌, ◌*◌, ◌<◌, ◌≤◌, ◌%◌, ◌^◌, [], ◌∷◌, ◌++◌, length, Some, option_map, slice_get, get_or, take, drop, set, replicate, IsOk, IfOk, OnOk, OnErr};
ghost use Rattle.q_packet.specs.Totals.{count, size};
ghost use Rattle.q_packet.specs.declared.stamped.Stamped.{Stamped};
ghost use Rattle.q_codel.specs.Front.{front_of};
ghost use Rattle.q_codel.specs.Losses.{AreLost};
ghost use Rattle.q_fqcodel.specs.Oldest.{first_arrival};
ghost use Rattle.q_fqcodel.specs.Pool.{stamp, packets_in, bytes_in, no_list, moved, SameBeside};

use crate::chain::{append, drop_head, take_head_into};
use crate::flow_list::FlowList;
use crate::nodes::Nodes;
use q_codel::{Front, Sink};
use q_packet::{Cause, KeptPacket, Moment, Stamped};
use std::alloc::{AllocError, Global};
use std::marker::Model;

/// The packets of all flows: the nodes of one slab, and for each flow a list that is linked through them.
#[derive(Drop)]
pub(crate) struct Pool {
    nodes: Nodes,
    lists: Vec<FlowList>,
    // The bytes in all lists.
    bytes: u64,
    // How many packets the nodes have room for, as far as `reserve` has reported.
    places: usize,
}

impl Model for Pool {
    ghost use Rattle.std.specs.Prelude.{◌≤◌};
    ghost use Rattle.q_fqcodel.specs.Nodes.{used};
    ghost use Rattle.q_fqcodel.specs.Pool.{PoolState, queues_in, IsPool};

    ghost Value = { PoolState };

    ghost view = { λ p. record { queues = queues_in (used p.nodes) p.lists.items; places = p.places } };

    ghost invariant = { λ p. IsPool (used p.nodes) p.nodes.count p.lists.items p.bytes × (p.places ≤ p.nodes.slab.capacity) };
}

impl Pool {
    /// So many flows without packets.
    pub(crate) fn new(alloc: Global, flows: u32) -> Result<Pool, AllocError>
        ensures queues { IfOk result (λ p. p.queues ≡ replicate flows []) }
        ensures places { IfOk result (λ p. p.places ≡ 0) }
    {
        let lists = vec![in alloc; FlowList::new(); flows as usize]?;
        Ok(Pool {
            nodes: Nodes::new(alloc),
            lists,
            bytes: 0,
            places: 0,
        })
    }

    /// Makes a place for one packet more, where there is none.
    pub(crate) fn reserve(&mut self) -> Result<(), AllocError>
        ensures had_room { packets_in self.old.queues < self.old.places → self.new ≡ self.old }
        ensures queues { self.new.queues ≡ self.old.queues }
        ensures grows { self.old.places ≤ self.new.places }
        ensures ok { OnOk result (packets_in self.new.queues < self.new.places) }
        ensures err { OnErr result (self.new ≡ self.old) }
        ensures succeeds { packets_in self.old.queues < self.old.places → IsOk result }
    {
        if self.nodes.count() < self.places {
            return Ok(());
        }
        self.nodes.reserve()?;
        self.places = self.nodes.capacity();
        Ok(())
    }

    pub(crate) fn count(&self) -> u64
        ensures { result ≡ packets_in self.now.queues }
    {
        self.nodes.count() as u64
    }

    /// Appends a packet, queued at the time `now`, to a flow, and returns the flow's bytes.
    #[inline(always)]
    pub(crate) fn push(&mut self, packet: &KeptPacket, now: Moment, flow: u32) -> u64
        requires in_range { flow < length self.old.queues }
        requires own { packet.now.hash % length self.old.queues ≡ flow }
        requires place { packets_in self.old.queues < self.old.places }
        requires few { packets_in self.old.queues < 2 ^ 32 }
        ensures queues { self.new.queues ≡ set self.old.queues flow (get_or self.old.queues flow [] ++ stamp packet.now now ∷ []) }
        ensures places { self.new.places ≡ self.old.places }
        ensures bytes { result ≡ size (get_or self.new.queues flow []) }
        ensures bytes_few { result < 2 ^ 48 - 1 }
    {
        let list = list_at(&self.lists, flow);
        let longer = append(&mut self.nodes, list, packet, now);
        write_longer(&mut self.lists, flow, longer);
        self.bytes += packet.stored.len as u64;
        longer.bytes
    }

    /// The packet in front of a flow.
    pub(crate) fn head_of(&self, flow: u32) -> Option<Stamped>
        ensures { result ≡ slice_get (get_or self.now.queues flow []) 0 }
    {
        let list = list_of(&self.lists, flow);
        if list.count == 0 {
            return None;
        }
        Some(self.nodes.at(list.head).stamped())
    }

    /// What CoDel reads of the packet in front of a flow.
    pub(crate) fn front_of(&self, flow: u32) -> Option<Front>
        ensures { result ≡ option_map front_of (slice_get (get_or self.now.queues flow []) 0) }
    {
        let list = list_of(&self.lists, flow);
        if list.count == 0 {
            return None;
        }
        let node = self.nodes.at(list.head);
        Some(node.front())
    }

    /// When the packet in front of a flow arrived.
    pub(crate) fn arrival_of(&self, flow: u32) -> Option<Moment>
        ensures { result ≡ first_arrival (get_or self.now.queues flow []) }
    {
        let list = list_of(&self.lists, flow);
        if list.count == 0 {
            return None;
        }
        let node = self.nodes.at(list.head);
        Some(node.at)
    }

    /// What CoDel reads of the packet in front of a flow, which has one, and the flow's bytes: its list is read once.
    #[inline(always)]
    pub(crate) fn peek(&self, flow: u32) -> (Front, u64)
        requires { 0 < count (get_or self.now.queues flow []) }
        ensures front { Some result.0 ≡ option_map front_of (slice_get (get_or self.now.queues flow []) 0) }
        ensures bytes { result.1 ≡ size (get_or self.now.queues flow []) }
        ensures few { result.1 < 2 ^ 48 - 1 }
    {
        let list = list_at(&self.lists, flow);
        let node = self.nodes.at(list.head);
        (node.front(), list.bytes)
    }

    /// Takes the packet in front of a flow.
    pub(crate) fn take_of(&mut self, flow: u32) -> Option<Stamped>
        ensures front { result ≡ slice_get (get_or self.old.queues flow []) 0 }
        ensures queues { self.new.queues ≡ set self.old.queues flow (drop 1 (get_or self.old.queues flow [])) }
        ensures places { self.new.places ≡ self.old.places }
    {
        let front = self.head_of(flow)?;
        self.discard(flow);
        Some(front)
    }

    /// Takes the packet in front of a flow, which has one, without returning it.
    #[inline(always)]
    fn discard(&mut self, flow: u32)
        requires { 0 < count (get_or self.old.queues flow []) }
        ensures queues { self.new.queues ≡ set self.old.queues flow (drop 1 (get_or self.old.queues flow [])) }
        ensures packets { packets_in self.new.queues + 1 ≡ packets_in self.old.queues }
        ensures places { self.new.places ≡ self.old.places }
    {
        let list = list_at(&self.lists, flow);
        let rest = drop_head(&mut self.nodes, list);
        write_rest(&mut self.lists, flow, rest);
        self.bytes -= list.bytes - rest.bytes;
    }

    /// Loses the packet in front of a flow, which has one: `sink` gets it, with this cause.
    #[inline(always)]
    pub(crate) fn lose_head<S: Sink>(&mut self, flow: u32, cause: Cause, sink: &mut S)
        requires some { 0 < count (get_or self.old.queues flow []) }
        requires room { 1 ≤ (S.state sink.old).room }
        ensures queues { self.new.queues ≡ set self.old.queues flow (drop 1 (get_or self.old.queues flow [])) }
        ensures packets { packets_in self.new.queues + 1 ≡ packets_in self.old.queues }
        ensures places { self.new.places ≡ self.old.places }
        ensures lost { AreLost cause (take 1 (get_or self.old.queues flow [])) (S.state sink.old) (S.state sink.new) }
        ensures kept { S.keeps sink.old sink.new }
    {
        // It is copied before its node is written, and so once.
        let gone = self.head_of(flow).unwrap();
        sink.lost(gone.packet, cause);
        self.discard(flow);
    }

    /// Takes the packet in front of a flow, which has one, into `out`.
    #[inline(always)]
    pub(crate) fn take_of_into(&mut self, flow: u32, out: &mut KeptPacket)
        requires { 0 < count (get_or self.old.queues flow []) }
        ensures given { Some out.new ≡ option_map (λ (s : Stamped). s.packet) (slice_get (get_or self.old.queues flow []) 0) }
        ensures some { 0 < out.new.len }
        ensures queues { self.new.queues ≡ set self.old.queues flow (drop 1 (get_or self.old.queues flow [])) }
        ensures places { self.new.places ≡ self.old.places }
    {
        let list = list_at(&self.lists, flow);
        let rest = take_head_into(&mut self.nodes, list, out);
        write_rest(&mut self.lists, flow, rest);
        self.bytes -= list.bytes - rest.bytes;
        // A packet has a byte at least.
        let _ = &out.stored.len;
    }

    /// Loses the packet in front of the flow `from`, and appends another to a flow. Returns the bytes of that flow.
    #[inline(always)]
    pub(crate) fn replace<S: Sink>(
        &mut self,
        from: u32,
        flow: u32,
        packet: &KeptPacket,
        now: Moment,
        sink: &mut S,
    ) -> u64
        requires in_range { flow < length self.old.queues }
        requires own { packet.now.hash % length self.old.queues ≡ flow }
        requires place { packets_in self.old.queues < self.old.places }
        requires few { packets_in self.old.queues < 2 ^ 32 }
        requires some { 0 < count (get_or self.old.queues from []) }
        requires room { 1 ≤ (S.state sink.old).room }
        ensures queues { self.new.queues ≡ moved from flow (stamp packet.now now) self.old.queues }
        ensures places { self.new.places ≡ self.old.places }
        ensures bytes { result ≡ size (get_or self.new.queues flow []) }
        ensures bytes_few { result < 2 ^ 48 - 1 }
        ensures lost { AreLost Cause.FatFlow (take 1 (get_or self.old.queues from [])) (S.state sink.old) (S.state sink.new) }
        ensures kept { S.keeps sink.old sink.new }
    {
        self.lose_head(from, Cause::FatFlow, sink);
        self.push(packet, now, flow)
    }

    /// The number of packets in a flow.
    pub(crate) fn count_of(&self, flow: u32) -> u64
        ensures { result ≡ count (get_or self.now.queues flow []) }
    {
        list_of(&self.lists, flow).count
    }

    /// The same, of a flow that is there.
    pub(crate) fn count_at(&self, flow: u32) -> u64
        requires { flow < length self.now.queues }
        ensures { result ≡ count (get_or self.now.queues flow []) }
    {
        list_at(&self.lists, flow).count
    }

    /// The bytes in a flow: at most 65535 of each packet, of which there are no more than 2^32.
    pub(crate) fn bytes_of(&self, flow: u32) -> u64
        ensures value { result ≡ size (get_or self.now.queues flow []) }
        ensures few { result < 2 ^ 48 - 1 }
    {
        list_of(&self.lists, flow).bytes
    }

    /// The same, of a flow that is there.
    pub(crate) fn bytes_at(&self, flow: u32) -> u64
        requires { flow < length self.now.queues }
        ensures value { result ≡ size (get_or self.now.queues flow []) }
        ensures few { result < 2 ^ 48 - 1 }
    {
        list_at(&self.lists, flow).bytes
    }

    /// Every packet has a byte at least, and 65535 at most. It does nothing.
    pub(crate) fn each_has_bytes(&self)
        ensures least { (n : ℕ) → count (get_or self.now.queues n []) ≤ size (get_or self.now.queues n []) }
        ensures most { (n : ℕ) → size (get_or self.now.queues n []) ≤ 65535 * count (get_or self.now.queues n []) }
    {
        let _ = &self.lists;
    }

    /// The bytes in all flows.
    pub(crate) fn bytes(&self) -> u64
        ensures value { result ≡ bytes_in self.now.queues }
        ensures few { result < 2 ^ 48 }
    {
        self.bytes
    }
}

// The list of a flow: one without packets where there is no such flow.
fn list_of(lists: &Vec<FlowList>, flow: u32) -> FlowList
    ensures { result ≡ get_or lists.now.items flow no_list }
{
    match lists.get(flow as usize) {
        Some(list) => *list,
        None => FlowList::new(),
    }
}

// The list of a flow that is there.
fn list_at(lists: &Vec<FlowList>, flow: u32) -> FlowList
    requires { flow < length lists.now.items }
    ensures { result ≡ get_or lists.now.items flow no_list }
{
    lists[flow as usize]
}

// Writes the list of a flow that has lost its first packet, but for its tail, which stays.
fn write_rest(lists: &mut Vec<FlowList>, flow: u32, rest: FlowList)
    requires within { flow < length lists.old.items }
    requires tail { rest.tail ≡ (get_or lists.old.items flow no_list).tail }
    ensures { lists.new.items ≡ set lists.old.items flow rest }
{
    let list = &mut lists[flow as usize];
    list.head = rest.head;
    list.count = rest.count;
    list.bytes = rest.bytes;
}

// Writes the list of a flow that has got a packet: but for its head, which stays, where the packet is not the first.
fn write_longer(lists: &mut Vec<FlowList>, flow: u32, longer: FlowList)
    requires within { flow < length lists.old.items }
    requires head { longer.count ≢ 1 → longer.head ≡ (get_or lists.old.items flow no_list).head }
    ensures { lists.new.items ≡ set lists.old.items flow longer }
{
    let list = &mut lists[flow as usize];
    list.tail = longer.tail;
    list.count = longer.count;
    list.bytes = longer.bytes;
    if longer.count == 1 {
        list.head = longer.head;
    }
}
