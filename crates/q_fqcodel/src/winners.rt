//! Which flow has the most bytes, known at all times: a tournament in which each flow plays its neighbour, and winners play winners. A put
//! or a take changes the games from one leaf up, a step for each doubling of the number of flows.
ghost use Rattle.std.specs.Prelude.{ℕ, ◌≡◌, ◌+◌, ◌-◌, ◌*◌, ◌/◌, ◌%◌, ◌^◌, ◌<◌, ◌≤◌, max, length, drop, set, replicate, IfOk};
ghost use Rattle.q_fqcodel.specs.Winners.{rank, rank_at, above, bytes_at, Leads, IsRightBut, AreRanks, AreRight};

use crate::course::Course;
use std::alloc::{AllocError, Global};
use std::marker::Model;

// What is before the root: more than any flow's rank.
const ABOVE: u64 = u64::MAX;

/// A tournament tree over the flows, whose root is the flow with the most bytes, of several the one with the lowest index.
///
/// A contract sees it as the list of the flows' bytes.
#[derive(Drop)]
pub(crate) struct Winners {
    // The rank at each node: in the second half those of the flows, and before them the greater of the two below. The root is
    // the second of the list, and the first is above every rank, so that each climb ends there at the latest. A rank has bytes and
    // flow in one number, so that a level of the tree costs one comparison.
    ranks: Vec<u64>,
    // Where the flows' ranks begin: as many as there are flows.
    leaves: usize,
}

impl Model for Winners {
    ghost use Rattle.std.specs.Prelude.{ℕ, List, ◌≡◌, ◌≤◌, ◌/◌, length};
    ghost use Rattle.q_fqcodel.specs.Winners.{bytes_in, IsTournament};

    ghost Value = { List ℕ };

    ghost view = { λ w. bytes_in w.ranks.items };

    ghost invariant = { λ w. IsTournament w.ranks.items × (length w.ranks.items ≤ 131072) × (w.leaves ≡ length w.ranks.items / 2) };
}

impl Winners {
    /// So many flows without bytes.
    pub(crate) fn new(alloc: Global, flows: u32) -> Result<Winners, AllocError>
        requires some { 1 ≤ flows }
        requires few { flows ≤ 65536 }
        ensures { IfOk result (λ w. w ≡ replicate flows 0) }
    {
        let mut ranks = vec![in alloc; 0u64; 2 * flows as usize]?;
        play(&mut ranks);
        Ok(Winners {
            ranks,
            leaves: flows as usize,
        })
    }

    /// The flow with the most bytes, of several the one with the lowest index, if this flow had so many bytes: as many as it has, or more.
    pub(crate) fn top_with(&self, flow: u32, bytes: u64) -> u32
        requires in_range { flow < length self.now }
        requires more { bytes_at self.now flow ≤ bytes }
        requires few { bytes < 2 ^ 48 - 1 }
        ensures within { result < length self.now }
        ensures leads { (i : ℕ) → i < length self.now → Leads (bytes_at (set self.now flow bytes)) result i }
    {
        let top = self.ranks[1];
        flow_of(rank_of(flow, bytes).max(top))
    }

    /// Notes how many bytes a flow has now, and whether they became more or fewer.
    #[inline(always)]
    pub(crate) fn renew(&mut self, flow: u32, bytes: u64, course: Course)
        requires in_range { flow < length self.old }
        requires few { bytes < 2 ^ 48 - 1 }
        requires rose { course ≡ Course.Rose → bytes_at self.old flow ≤ bytes }
        requires fell { course ≡ Course.Fell → bytes ≤ bytes_at self.old flow }
        ensures { self.new ≡ set self.old flow bytes }
    {
        let leaf = self.leaves + flow as usize;
        climb(&mut self.ranks, leaf, rank_of(flow, bytes), course);
    }
}

// The rank of a flow with so many bytes: the greater for more bytes, and of equals for the lower index.
fn rank_of(flow: u32, bytes: u64) -> u64
    requires flow { flow < 65536 }
    requires few { bytes < 2 ^ 48 - 1 }
    ensures { result ≡ rank flow bytes }
{
    bytes * 65536 + (65535 - flow) as u64
}

// The flow that has a rank.
fn flow_of(rank: u64) -> u32
    ensures { result ≡ 65535 - rank % 65536 }
{
    65535 - (rank % 65536) as u32
}

// Finds every rank, from the last leaf to the root, where no flow has bytes.
fn play(ranks: &mut Vec<u64>)
    requires even { length ranks.old.items ≡ 2 * (length ranks.old.items / 2) }
    requires few { length ranks.old.items ≤ 131072 }
    requires some { 2 ≤ length ranks.old.items }
    ensures len { length ranks.new.items ≡ length ranks.old.items }
    ensures leaves { (i : ℕ) → i < length ranks.old.items / 2 → rank_at ranks.new.items (length ranks.old.items / 2 + i) ≡ rank i 0 }
    ensures past { rank_at ranks.new.items 0 ≡ above }
    ensures each { IsRightBut 0 ranks.new.items }
{
    let flows = ranks.len() / 2;
    let mut node = ranks.len();
    while node > flows {
        node -= 1;
        ranks[node] = rank_of((node - flows) as u32, 0);
    }
    while node > 1 {
        node -= 1;
        ranks[node] = ranks[2 * node].max(ranks[2 * node + 1]);
    }
    ranks[0] = ABOVE;
}

// Writes the rank of a leaf, and makes those above it right again: each is the greater of the two below it. The leaf's rank, before
// or now, says at each node whether the climb ends there, so that this does not wait for what is found below.
#[inline(always)]
fn climb(ranks: &mut [u64], leaf: usize, rank: u64, course: Course)
    requires ranks { AreRanks ranks.old leaf }
    requires below { rank_at ranks.old leaf < above }
    requires rose { course ≡ Course.Rose → rank_at ranks.old leaf ≤ rank }
    requires fell { course ≡ Course.Fell → rank ≤ rank_at ranks.old leaf }
    ensures { AreRight (set ranks.old leaf rank) ranks.new }
{
    match course {
        Course::Rose => raise(ranks, leaf, rank),
        Course::Fell => lower(ranks, leaf, rank),
        Course::Either => {
            // A flow that is alone has no node above it: whether it grew, which a processor cannot foresee, is not asked.
            if leaf < 2 {
                ranks[leaf] = rank;
                return;
            }
            if ranks[leaf] < rank {
                return raise(ranks, leaf, rank);
            }
            lower(ranks, leaf, rank)
        }
    }
}

// Writes a rank that has grown at its leaf, and at those above it as far as it is the greater. No node beside is read, since none
// is greater than the one above it.
#[inline(always)]
fn raise(ranks: &mut [u64], leaf: usize, rank: u64)
    requires ranks { AreRanks ranks.old leaf }
    requires grown { rank_at ranks.old leaf ≤ rank }
    ensures { AreRight (set ranks.old leaf rank) ranks.new }
{
    ranks[leaf] = rank;
    let mut node = leaf / 2;
    while ranks[node] < rank {
        ranks[node] = rank;
        node /= 2;
    }
}

// Writes a rank that has not grown at its leaf, and above it the greater of two at each node that had the leaf's old rank: a node
// that had another rank had the greater one, and keeps it.
#[inline(always)]
fn lower(ranks: &mut [u64], leaf: usize, rank: u64)
    requires ranks { AreRanks ranks.old leaf }
    requires below { rank_at ranks.old leaf < above }
    requires fallen { rank ≤ rank_at ranks.old leaf }
    ensures { AreRight (set ranks.old leaf rank) ranks.new }
{
    let old = ranks[leaf];
    let mut node = leaf;
    let mut best = rank;
    while ranks[node] == old {
        ranks[node] = best;
        best = best.max(ranks[beside(node)]);
        node /= 2;
    }
}

// The node beside one, below the same node.
fn beside(node: usize) -> usize
    ensures { result ≡ 4 * (node / 2) + 1 - node }
{
    node ^ 1
}
