ghost use Rattle.std.specs.Prelude.{◌≡◌, ◌≤◌, ◌+◌, ◌*◌, ◌^◌, ◌++◌, All, IfSome, length, map, option_map, slice_get, sum_by};
ghost use Rattle.q_drr.specs.Schedule.{Class};
ghost use Rattle.q_tree.specs.answers.Ways.{IsShare, drr_class, drrs_on, has_tbf, is_tbf, share_among, share_of, shares_of, way_below, way_from, way_to};

use crate::node::{Discipline, Node, child_at};
use crate::tree::Tree;
use arrayvec::ArrayVec;
use q_drr::Active;
use q_model::{ClassId, Handle};

/// A tbf at the root: its handle, its rate in bits a second, and its burst in bytes.
#[derive(Clone, Copy, PartialEq, Eq, Debug)]
pub struct Link {
    pub handle: Handle,
    pub rate: u64,
    pub burst: u32,
}

/// A class of a drr in numbers: it gets `quantum` of every `quanta` bytes.
#[derive(Clone, Copy, PartialEq, Eq, Debug, Default)]
pub struct Share {
    /// The quantum of the class, in bytes.
    pub quantum: u32,
    /// The sum of the quanta of all classes of the drr, in bytes.
    pub quanta: u64,
    /// How many classes the drr has.
    pub classes: u32,
}

/// The way from the root down to a class of a drr: it leads through drrs alone, below a tbf at the root if there is one.
#[derive(Drop)]
pub struct Way {
    /// The tbf at the root, if there is one. There is no other tbf in the tree then.
    pub link: Option<Link>,
    /// The classes on the way, from the root down, at most eight.
    pub shares: ArrayVec<Share, 8>,
}

impl Tree {
    /// Finds the way from the root down to a class of a drr. Allocates nothing.
    ///
    /// Returns `None` if there is no such class, if something other than drrs is on the way, apart from a tbf at the root, or if another tbf is
    /// below that one.
    pub fn way_to(&self, class: ClassId) -> Option<Way>
        ensures link { option_map (λ w. w.link) result ≡ option_map (λ w. w.link) (way_to class self.now.tree.root) }
        ensures shares { option_map (λ w. w.shares.items) result ≡ option_map shares_of (way_to class self.now.tree.root) }
        ensures ranges { IfSome result (λ w. All IsShare w.shares.items) }
    {
        let path = self.qdiscs().class_path(class)?;
        self.root.way_from(&path)
    }
}

impl Node {
    // The [`Way`] from the root down along this path.
    fn way_from(&self, path: &[usize]) -> Option<Way>
        requires { length path.now ≤ 8 }
        ensures link { option_map (λ w. w.link) result ≡ option_map (λ w. w.link) (way_from path.now self.now self.now.own.discipline) }
        ensures shares { option_map (λ w. w.shares.items) result ≡ option_map shares_of (way_from path.now self.now self.now.own.discipline) }
        ensures ranges { IfSome result (λ w. All IsShare w.shares.items) }
    {
        let (&place, rest) = path.split_first()?;
        match &self.discipline {
            Discipline::Tbf { bucket, child, .. } => {
                let link = Link {
                    handle: self.handle?,
                    rate: bucket.rate(),
                    burst: bucket.burst(),
                };
                if place != 0 {
                    return None;
                }
                return child.way_below(link, rest);
            }
            Discipline::Drr { .. } => {
                let shares = self.shares(path, ArrayVec::new())?;
                return Some(Way { link: None, shares });
            }
            Discipline::Fifo(_) | Discipline::Prio { .. } | Discipline::FqCodel(_) => return None,
        }
    }

    // The same from the child of a tbf at the root down.
    fn way_below(&self, link: Link, path: &[usize]) -> Option<Way>
        requires { length path.now ≤ 8 }
        ensures link { option_map (λ w. w.link) result ≡ option_map (λ w. w.link) (way_below link path.now self.now) }
        ensures shares { option_map (λ w. w.shares.items) result ≡ option_map shares_of (way_below link path.now self.now) }
        ensures ranges { IfSome result (λ w. All IsShare w.shares.items) }
    {
        if path.is_empty() {
            return None;
        }
        if self.has_tbf() {
            return None;
        }
        let shares = self.shares(path, ArrayVec::new())?;
        Some(Way {
            link: Some(link),
            shares,
        })
    }

    // The classes on a path down, behind those above, if each is one of a drr.
    fn shares(&self, path: &[usize], above: ArrayVec<Share, 8>) -> Option<ArrayVec<Share, 8>>
        requires short { length above.items + length path.now ≤ 8 }
        requires above { All IsShare above.items }
        ensures value { option_map (λ v. v.items) result ≡ option_map (λ ds. above.items ++ map share_of ds) (drrs_on path.now self.now) }
        ensures ranges { IfSome result (λ v. All IsShare v.items) }
    {
        let Some((&place, rest)) = path.split_first() else {
            return Some(above);
        };
        let share = self.share_at(place)?;
        let child = child_at(self.children(), place)?;
        let mut shares = above;
        shares.push(share);
        child.shares(rest, shares)
    }

    // The class of the child in this place, if this is a drr.
    fn share_at(&self, place: usize) -> Option<Share>
        ensures value { result ≡ option_map share_of (drr_class place self.now.own) }
        ensures ranges { IfSome result IsShare }
    {
        let _handle = self.handle?;
        match &self.discipline {
            Discipline::Drr { active, .. } => return share_in(active, place),
            Discipline::Tbf { .. }
            | Discipline::Prio { .. }
            | Discipline::Fifo(_)
            | Discipline::FqCodel(_) => return None,
        }
    }

    /// Whether a tbf is here or below.
    pub(crate) fn has_tbf(&self) -> bool
        ensures { result ≡ has_tbf self.now }
    {
        if self.is_tbf() {
            return true;
        }
        for child in self.children() {
            if child.has_tbf() {
                return true;
            }
        }
        false
    }

    // Whether this is a tbf.
    fn is_tbf(&self) -> bool
        ensures { result ≡ is_tbf self.now.own.discipline }
    {
        match &self.discipline {
            Discipline::Tbf { .. } => return true,
            Discipline::Prio { .. }
            | Discipline::Drr { .. }
            | Discipline::Fifo(_)
            | Discipline::FqCodel(_) => return false,
        }
    }
}

/// The class in this place, in numbers.
pub(crate) fn share_in(active: &Active, place: usize) -> Option<Share>
    ensures value { result ≡ option_map (λ c. share_among c active.now.classes) (slice_get active.now.classes place) }
    ensures ranges { IfSome result IsShare }
{
    let class = active.class_at(place)?;
    Some(Share {
        quantum: active.quantum(class),
        quanta: quanta_of(active),
        classes: active.count() as u32,
    })
}

// The quanta of all classes together.
fn quanta_of(active: &Active) -> u64
    ensures value { result ≡ sum_by (λ (c : Class). c.quantum) active.now.classes }
    ensures bound { result ≤ length active.now.classes * 2 ^ 32 }
{
    let mut quanta = 0;
    for place in 0..active.count() {
        let Some(class) = active.class_at(place) else {
            unreachable!()
        };
        quanta += u64::from(active.quantum(class));
    }
    quanta
}
