//! Nodes that are linked, not freed, when their packet leaves: a packet is written once, and nothing is cleared.
ghost use Rattle.std.specs.Prelude.{ℕ, ◌≡◌, ◌≢◌, ◌+◌, ◌<◌, ◌≤◌, [], Some, None, IsSome, IfSome, OnOk, OnErr, IsOk};
ghost use Rattle.slab.specs.Slab.{get, slab_len, HasRoomFor};
ghost use Rattle.q_fqcodel.specs.Chain.{stamped_of, led_to};
ghost use Rattle.q_fqcodel.specs.Nodes.{used};
ghost use Rattle.q_fqcodel.specs.declared.node.Node.{Node};

use crate::node::Node;
use q_packet::{KeptPacket, Moment};
use slab::Slab;
use std::alloc::{AllocError, Global};
use std::marker::Model;

/// The nodes of a slab, some with a packet and some spare. A node whose packet leaves stays in the slab, linked to the spare
/// ones, and the next packet takes it: so a packet is copied into its node alone, and nothing is cleared where it leaves.
///
/// A contract sees what is at each key by `used`: a node with a packet, or nothing.
#[derive(Drop)]
pub(crate) struct Nodes {
    slab: Slab<Node>,
    // The key of the first spare node. It is read only where there is one.
    spare: usize,
    // The nodes with a packet.
    count: usize,
}

impl Model for Nodes {
    ghost use Rattle.q_fqcodel.specs.Nodes.{NodesState, IsNodes};

    ghost Value = { NodesState };

    ghost view = { λ n. record { slab = n.slab; spare = n.spare; count = n.count } };

    ghost invariant = { λ n. IsNodes (record { slab = n.slab; spare = n.spare; count = n.count }) };
}

impl Nodes {
    pub(crate) fn new(alloc: Global) -> Nodes
        ensures count { result.count ≡ 0 }
    {
        Nodes {
            slab: Slab::new(alloc),
            spare: 0,
            count: 0,
        }
    }

    /// The number of nodes with a packet.
    pub(crate) fn count(&self) -> usize
        ensures { result ≡ self.now.count }
    {
        self.count
    }

    /// How many packets there is memory for.
    pub(crate) fn capacity(&self) -> usize
        ensures { result ≡ self.now.slab.capacity }
    {
        self.slab.capacity()
    }

    /// Makes a place for one packet more.
    pub(crate) fn reserve(&mut self) -> Result<(), AllocError>
        ensures same { (key : ℕ) → used self.new key ≡ used self.old key }
        ensures count { self.new.count ≡ self.old.count }
        ensures grows { self.old.slab.capacity ≤ self.new.slab.capacity }
        ensures ok { OnOk result (self.new.count < self.new.slab.capacity) }
    {
        self.slab.reserve(1)
    }

    /// The node at a key.
    #[inline(always)]
    pub(crate) fn at(&self, key: usize) -> &Node
        requires { IsSome (used self.now key) }
        ensures { used self.now key ≡ Some result.now }
    {
        &self.slab[key]
    }

    /// Links a node to another one behind it.
    #[inline(always)]
    pub(crate) fn link(&mut self, key: usize, next: usize)
        requires { IsSome (used self.old key) }
        ensures led { (x : Node) → used self.old key ≡ Some x → used self.new key ≡ Some (led_to next x) }
        ensures same { (j : ℕ) → j ≢ key → used self.new j ≡ used self.old j }
        ensures count { self.new.count ≡ self.old.count }
        ensures capacity { self.new.slab.capacity ≡ self.old.slab.capacity }
    {
        self.slab[key].next = next;
    }

    /// Copies a packet into a node that has none, and returns its key.
    #[inline(always)]
    pub(crate) fn claim(&mut self, packet: &KeptPacket, now: Moment) -> usize
        requires { self.old.count < self.old.slab.capacity }
        ensures vacant { used self.old result ≡ None }
        ensures stored { IfSome (used self.new result) (λ x. stamped_of x ≡ record { packet = packet.now; at = now }) }
        ensures there { IsSome (used self.new result) }
        ensures same { (j : ℕ) → j ≢ result → used self.new j ≡ used self.old j }
        ensures count { self.new.count ≡ self.old.count + 1 }
        ensures capacity { self.new.slab.capacity ≡ self.old.slab.capacity }
    {
        if self.count == self.slab.len() {
            let key = insert(&mut self.slab, packet, now);
            self.count = self.slab.len();
            return key;
        }
        let key = self.spare;
        let node = &mut self.slab[key];
        let next = node.next;
        node.packet = *packet;
        node.at = now;
        self.spare = next;
        self.count += 1;
        key
    }

    /// Copies the packet of the node at a key into `out`, and leaves the node without it. Returns the key that the node led to, and
    /// the packet's length in bytes.
    #[inline(always)]
    pub(crate) fn release_into(&mut self, key: usize, out: &mut KeptPacket) -> (usize, u16)
        requires there { IsSome (used self.old key) }
        requires some { 0 < self.old.count }
        ensures given { (x : Node) → used self.old key ≡ Some x → out.new ≡ x.packet }
        ensures next { (x : Node) → used self.old key ≡ Some x → result.0 ≡ x.next }
        ensures len { result.1 ≡ out.new.len }
        ensures same { (j : ℕ) → j ≢ key → used self.new j ≡ used self.old j }
        ensures count { self.new.count + 1 ≡ self.old.count }
        ensures capacity { self.new.slab.capacity ≡ self.old.slab.capacity }
    {
        let spare = self.spare;
        let node = &mut self.slab[key];
        let packet = &node.packet;
        let len = packet.stored.len;
        let next = node.next;
        *out = *packet;
        node.next = spare;
        self.spare = key;
        self.count -= 1;
        (next, len)
    }

    /// Leaves the node at a key without its packet.
    #[inline(always)]
    pub(crate) fn vacate(&mut self, key: usize)
        requires there { IsSome (used self.old key) }
        requires some { 0 < self.old.count }
        ensures same { (j : ℕ) → j ≢ key → used self.new j ≡ used self.old j }
        ensures count { self.new.count + 1 ≡ self.old.count }
        ensures capacity { self.new.slab.capacity ≡ self.old.slab.capacity }
    {
        self.slab[key].next = self.spare;
        self.spare = key;
        self.count -= 1;
    }
}

// Puts a packet into a node that is new. It is a function of its own, since it is only called until there are enough.
#[cold]
#[inline(never)]
fn insert(slab: &mut Slab<Node>, packet: &KeptPacket, now: Moment) -> usize
    requires { HasRoomFor slab.old 1 }
    ensures vacant { get slab.old result ≡ None }
    ensures stored { IfSome (get slab.new result) (λ x. stamped_of x ≡ record { packet = packet.now; at = now }) }
    ensures there { IsSome (get slab.new result) }
    ensures same { (j : ℕ) → j ≢ result → get slab.new j ≡ get slab.old j }
    ensures len { slab_len slab.new ≡ slab_len slab.old + 1 }
    ensures capacity { slab.new.capacity ≡ slab.old.capacity }
{
    slab.insert_reserved(Node {
        packet: *packet,
        at: now,
        next: 0,
    })
}
