ghost use Rattle.std.specs.Prelude.{◌≡◌, ◌≤◌, ◌<◌, ◌+◌, ◌-◌, ◌*◌, ◌^◌, All, IfSome, IsTrue};
ghost use Rattle.std.specs.Int.{div_ceil};
ghost use Rattle.q_model.specs.Stretches.{length_held};
ghost use Rattle.q_tree.specs.answers.TurnNow.{bytes_along, bytes_before, bytes_in_drr};
ghost use Rattle.q_drr.specs.Schedule.{deficit_of, has_class, woken};
ghost use Rattle.q_tree.specs.answers.Turns.{limit_in, turn_on, turn_to};
ghost use Rattle.q_tree.specs.answers.Ways.{IsShare};

use crate::answers::ways::{Link, Share, Way, share_in};
use crate::node::{Discipline, Node, child_at};
use crate::tree::Tree;
use q_codel::Limit;
use q_drr::Active;
use q_model::{ClassId, Place};

/// A class of a drr whose packets are in a fifo, in numbers. The drr is at the root, or is the child of a tbf at the root.
#[derive(Clone, Copy, PartialEq, Eq, Debug)]
pub struct Turn {
    /// The tbf at the root, if there is one. There is no other tbf in the tree then.
    pub link: Option<Link>,
    /// The class among those of its drr.
    pub share: Share,
    /// How much the fifo of the class holds.
    pub limit: Limit,
}

impl Tree {
    /// Finds the class of a drr in this place, if one drr alone is on the way to it, apart from a tbf at the root, and a pfifo or bfifo is in it.
    /// Returns `None` if the class has another qdisc, or if [`Tree::way_to`] finds no such way. Allocates nothing.
    pub fn turn_to(&self, place: Place) -> Option<Turn>
        ensures value { result ≡ turn_to place self.now.tree.root }
        ensures ranges { IfSome result (λ t. IsShare t.share) }
    {
        let Place::Class(class) = place else {
            return None;
        };
        let way = self.way_to(class)?;
        turn_on(&way, self.limit_in(class)?)
    }

    /// The bytes that leave the drr of this class, from now on, until the packet has left it that is queued last in the class, or, with a `len` above
    /// 0, one of so many bytes that comes there next. It is said of a class of a drr in any place. Returns `None` if there is no such class.
    /// Allocates nothing, and takes time in proportion to the number of classes.
    pub fn bytes_before(&self, class: ClassId, len: u16) -> Option<u128>
        ensures { result ≡ bytes_before class len self.now.tree.root }
    {
        let path = self.qdiscs().class_path(class)?;
        self.root.bytes_along(&path, len)
    }

    // The limit of the fifo in a class.
    fn limit_in(&self, class: ClassId) -> Option<Limit>
        ensures { result ≡ limit_in class self.now.tree.root }
    {
        let path = self.qdiscs().class_path(class)?;
        self.root.at(&path)?.limit()
    }
}

impl Node {
    // The bytes that leave the drr at the end of this path, but for its last step, which leads to the class.
    fn bytes_along(&self, path: &[usize], len: u16) -> Option<u128>
        ensures { result ≡ bytes_along len path.now self.now }
    {
        let (&place, rest) = path.split_first()?;
        let child = child_at(self.children(), place)?;
        let Some(_next) = rest.split_first() else {
            return self.bytes_in_drr(place, child, len);
        };
        child.bytes_along(rest, len)
    }

    // The bytes that leave this drr until the last packet of the class of this child has left, and one of this length that comes next.
    fn bytes_in_drr(&self, place: usize, child: &Node, len: u16) -> Option<u128>
        ensures { result ≡ bytes_in_drr place len self.now.own child.now self.now.own.discipline }
    {
        match &self.discipline {
            Discipline::Drr { active, .. } => {
                let share = share_in(active, place)?;
                let class = active.class_at(place)?;
                let bytes = u128::from(child.queued().bytes) + u128::from(len);
                let ahead = active.deficits_ahead(class);
                let turn = turn_now(share, bytes, deficit_at_turn(active, class), ahead);
                return Some(u128::from(self.held_len()) + turn);
            }
            Discipline::Fifo(_)
            | Discipline::Prio { .. }
            | Discipline::Tbf { .. }
            | Discipline::FqCodel(_) => return None,
        }
    }

    // The length of the packet that this node holds, and 0 if it holds none.
    fn held_len(&self) -> u16
        ensures { result ≡ length_held self.now.own.held }
    {
        match self.held.packet() {
            Some(kept) => return kept.packet().len,
            None => return 0,
        }
    }
}

// The deficit of a class, and its quantum if it is inactive, which is what it has once a packet comes there.
fn deficit_at_turn(active: &Active, class: u16) -> u64
    requires { IsTrue (has_class class active.now.classes) }
    ensures { result ≡ deficit_of class (woken class active.now).active }
{
    if active.is_active(class) {
        return active.deficit(class);
    }
    u64::from(active.quantum(class))
}

// A turn of a drr for so many bytes of this class, which has this deficit, where this is what the others may send of theirs.
fn turn_now(share: Share, bytes: u128, deficit: u64, ahead: u128) -> u128
    requires share { IsShare share }
    requires bytes { bytes ≤ 2 ^ 65 }
    requires ahead { ahead ≤ 2 ^ 97 }
    ensures value { result ≡ bytes + div_ceil (bytes - deficit) share.quantum * (share.quanta - share.quantum) + ahead }
    ensures bound { result ≤ 2 ^ 115 }
{
    let grants = bytes
        .saturating_sub(u128::from(deficit))
        .div_ceil(u128::from(share.quantum));
    let others = u128::from(share.quanta - u64::from(share.quantum));
    bytes + grants * others + ahead
}

// The turn of the class at the end of a way, if that is the only class on it.
fn turn_on(way: &Way, limit: Limit) -> Option<Turn>
    requires { All IsShare way.now.shares.items }
    ensures value { result ≡ turn_on way.now.link way.now.shares.items limit }
    ensures ranges { IfSome result (λ t. IsShare t.share) }
{
    let (&share, rest) = way.shares.as_slice().split_first()?;
    if !rest.is_empty() {
        return None;
    }
    Some(Turn {
        link: way.link,
        share,
        limit,
    })
}
