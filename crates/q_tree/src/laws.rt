//! What holds for every tree and its calls. Each function does nothing: its contract is the law.
ghost use Rattle.std.specs.Prelude.{None, ◌≡◌, ◌≤◌, [], List, ℕ};
ghost use Rattle.q_model.specs.Lawful.{IsLawfulTree};
ghost use Rattle.q_model.specs.Tally.{totals};
ghost use Rattle.q_model.specs.TreeState.{given, noted_by_take, peek_packet, put, take_packet};
ghost use Rattle.q_packet.specs.Descriptor.{Descriptor};
ghost use Rattle.q_tree.specs.answers.MostPackets.{most_packets};
ghost use Rattle.q_tree.specs.arrival.Places.{places_at};
ghost use Rattle.q_tree.specs.Kept.{kept};
ghost use Rattle.q_tree.specs.Laws.{EditLeavesOtherSubtrees, PeekCountsItsLosses, PutCountsItsLosses, PutKeepsPlaces, PutLeavesOtherSubtrees, TakeCountsItsLosses};
ghost use Rattle.q_tree.specs.TreeSeen.{tree_numbers};

use crate::tree::Tree;
use q_packet::Moment;

/// Every tree is lawful: each row is balanced, each active list has each backlogged entry once, each token bucket is within its burst, no two
/// qdiscs have the same handle, and the bounds on depth and on the number of nodes hold.
pub fn tree_is_lawful(tree: &Tree)
    ensures { IsLawfulTree totals tree.now.clock (tree_numbers tree.now.tree) }
{
    // What the type keeps.
    let _ = &tree.mtu;
}

/// A second peek at the same time shows the same packet, loses and marks nothing more, and leaves the tree as it is.
///
/// `now` is not before the latest time that the tree was given.
pub fn second_peek_changes_nothing(tree: &Tree, now: Moment)
    requires { tree.now.clock ≤ now }
    ensures packet { given now (peek_packet kept now tree.now.tree) ≡ given now tree.now.tree }
    ensures quiet { noted_by_take now (peek_packet kept now tree.now.tree) ≡ [] }
    ensures same { peek_packet kept now (peek_packet kept now tree.now.tree) ≡ peek_packet kept now tree.now.tree }
{
    // The tree is lawful, and a time is at most 2^62 nanoseconds.
    let _ = &tree.mtu;
    let _ = now.ns();
}

/// A take right after a peek, at the same time, returns the packet that was shown, and leaves the tree that a take alone leaves.
///
/// `now` is not before the latest time that the tree was given.
pub fn take_gives_what_peek_shows(tree: &Tree, now: Moment)
    requires { tree.now.clock ≤ now }
    ensures packet { given now (peek_packet kept now tree.now.tree) ≡ given now tree.now.tree }
    ensures after { take_packet kept now (peek_packet kept now tree.now.tree) ≡ take_packet kept now tree.now.tree }
{
    // The tree is lawful, and a time is at most 2^62 nanoseconds.
    let _ = &tree.mtu;
    let _ = now.ns();
}

/// A put changes only the nodes on the packet's route. What is below other children stays as it was, including its counters.
pub fn put_leaves_other_subtrees()
    ensures { PutLeavesOtherSubtrees }
{}

/// A put leaves each queue the places that it had. The packet takes one of those that [`Tree::prepare`] has made.
pub fn put_keeps_places()
    ensures { PutKeepsPlaces }
{}

/// A peek and a take leave each queue the places that it had: the place of a packet that leaves stays.
///
/// `now` is not before the latest time that the tree was given.
pub fn take_keeps_places(tree: &Tree, now: Moment)
    requires { tree.now.clock ≤ now }
    ensures peek { (way : List ℕ) → places_at way (peek_packet kept now tree.now.tree).root ≡ places_at way tree.now.tree.root }
    ensures take { (way : List ℕ) → places_at way (take_packet kept now tree.now.tree).root ≡ places_at way tree.now.tree.root }
{
    // The tree is lawful, and a time is at most 2^62 nanoseconds.
    let _ = &tree.mtu;
    let _ = now.ns();
}

/// After a put, a peek or a take, a tree can hold no more packets than before ([`Tree::most_packets`]). So no more are ever queued until a command
/// changes the tree.
///
/// `now` is not before the latest time that the tree was given.
pub fn no_more_is_held(tree: &Tree, now: Moment)
    requires { tree.now.clock ≤ now }
    ensures put { (p : Descriptor) → 1 ≤ p.len → most_packets (put kept now p tree.now.tree).root ≤ most_packets tree.now.tree.root }
    ensures peek { most_packets (peek_packet kept now tree.now.tree).root ≤ most_packets tree.now.tree.root }
    ensures take { most_packets (take_packet kept now tree.now.tree).root ≤ most_packets tree.now.tree.root }
{
    // The tree is lawful, and a time is at most 2^62 nanoseconds.
    let _ = &tree.mtu;
    let _ = now.ns();
}

/// A command changes the node that it names, and the counters above that node. What is below other children stays as it was, including its counters
/// and the places of its queues.
pub fn command_leaves_other_subtrees()
    ensures { EditLeavesOtherSubtrees }
{}

/// What a call reports as lost is what the counters of the device show: refused grows by the packets that were refused, and dropped by the other
/// lost packets, in packets and in bytes.
pub fn losses_are_counted()
    ensures put { PutCountsItsLosses }
    ensures peek { PeekCountsItsLosses }
    ensures take { TakeCountsItsLosses }
{}

/// A poll that gives nothing, made again at the same time, gives nothing, loses nothing and changes nothing.
///
/// `now` is not before the latest time that the tree was given.
pub fn second_poll_changes_nothing(tree: &Tree, now: Moment)
    requires order { tree.now.clock ≤ now }
    requires nothing { given now tree.now.tree ≡ None }
    ensures packet { given now (take_packet kept now tree.now.tree) ≡ None }
    ensures quiet { noted_by_take now (take_packet kept now tree.now.tree) ≡ [] }
    ensures same { take_packet kept now (take_packet kept now tree.now.tree) ≡ take_packet kept now tree.now.tree }
{
    // The tree is lawful, and a time is at most 2^62 nanoseconds.
    let _ = &tree.mtu;
    let _ = now.ns();
}
