ghost use Rattle.std.specs.Prelude.{◌≡◌, ◌<◌, ◌≤◌, ◌^◌, IfNone, IfSome, IsSome, None, true, ℕ};
ghost use Rattle.q_model.specs.TreeState.{given};
ghost use Rattle.q_tree.specs.answers.ReadyAt.{at_best, at_hand, is_before, is_sure, later, outlook, ready_at, sooner};

use crate::disciplines::drr::of_front;
use crate::disciplines::fifo::{first_packet, of_fifo};
use crate::disciplines::fq_codel::of_flows;
use crate::disciplines::prio::of_bands;
use crate::node::{Discipline, Node};
use crate::tree::Tree;
use q_packet::Moment;

/// What is known of the packets that a node shows, before it is asked.
#[derive(Clone, Copy)]
pub(crate) struct Outlook {
    /// It shows none before this time, and never one where this is `None`.
    pub(crate) at: Option<Moment>,
    /// It shows none that has fewer bytes.
    pub(crate) least: u16,
    /// The bytes of what it shows from `at` on; `None` where they depend on the time at which it is asked.
    pub(crate) len: Option<u16>,
    /// When it may show another one, or none; `None` if never.
    pub(crate) until: Option<Moment>,
}

impl Outlook {
    /// It never shows a packet.
    pub(crate) const NO_PACKET: Outlook = Outlook {
        at: None,
        least: 0,
        len: None,
        until: None,
    };

    /// A packet that is at hand.
    pub(crate) fn at_hand(now: Moment, len: u16) -> Outlook
        ensures { result ≡ at_hand now len }
    {
        Outlook {
            at: Some(now),
            least: len,
            len: Some(len),
            until: None,
        }
    }

    /// No more is known than that no packet comes before, and none is shorter.
    pub(crate) fn at_best(at: Option<Moment>, least: u16) -> Outlook
        ensures { result ≡ at_best at least }
    {
        let until = at;
        Outlook {
            at,
            least,
            len: None,
            until,
        }
    }
}

impl Tree {
    /// Computes the time, from `now` on, before which no take gives a packet, as long as no packet arrives and no command comes. Returns `None` if
    /// no take will ever give one, and `now` itself if a take may give one at once. `now` is not before the latest time that the tree was given.
    ///
    /// A take at the returned time gives a packet if, for each tbf, the length is known that it waits for: that of the packet that its child has at
    /// hand. Changes nothing, allocates nothing, and visits each node at most once.
    pub fn ready_at(&self, now: Moment) -> Option<Moment>
        requires order { self.now.clock ≤ now }
        ensures value { result ≡ ready_at now self.now.tree.root }
        ensures from { IfSome result (λ at. now ≤ at) }
        ensures early { IfSome result (λ at. (t : ℕ) → now ≤ t → t < at → given t self.now.tree ≡ None) }
        ensures some { is_sure now self.now.tree.root ≡ true → IfSome result (λ at. IsSome (given at self.now.tree)) }
        ensures never { IfNone result ((t : ℕ) → now ≤ t → t ≤ 2 ^ 62 → given t self.now.tree ≡ None) }
    {
        // The tree is lawful, and a time is at most 2^62 nanoseconds.
        let _ = &self.mtu;
        let _ = now.ns();
        let at = self.root.outlook(now).at?;
        let _ = at.ns();
        Some(at)
    }
}

impl Node {
    /// What is known of the packets that the node shows from `now` on. Nobody is asked.
    #[cycle(outlook)]
    pub(crate) fn outlook(&self, now: Moment) -> Outlook
        ensures { result ≡ outlook now self.now }
    {
        if let Some(packet) = self.held.packet() {
            return Outlook::at_hand(now, packet.len());
        }
        match &self.discipline {
            Discipline::Fifo(fifo) => return of_fifo(first_packet(fifo), now),
            Discipline::Prio { bands, .. } => return of_bands(bands, now),
            Discipline::Tbf { bucket, child, .. } => return child.outlook(now).shaped(bucket),
            Discipline::Drr { active, classes } => return of_front(active, classes, now),
            Discipline::FqCodel(queue) => return of_flows(queue.queued().0, now),
        }
    }
}

/// The later of two times; none where either never comes.
pub(crate) fn later(a: Option<Moment>, b: Option<Moment>) -> Option<Moment>
    ensures { result ≡ later a b }
{
    Some(a?.max(b?))
}

/// Whether a time comes, and before the other one.
pub(crate) fn is_before(a: Option<Moment>, b: Option<Moment>) -> bool
    ensures { result ≡ is_before a b }
{
    let Some(first) = a else {
        return false;
    };
    let Some(second) = b else {
        return true;
    };
    first < second
}

/// The sooner of two times; the other one where one never comes.
pub(crate) fn sooner(a: Option<Moment>, b: Option<Moment>) -> Option<Moment>
    ensures { result ≡ sooner a b }
{
    let Some(first) = a else {
        return b;
    };
    let Some(second) = b else {
        return a;
    };
    Some(first.min(second))
}
