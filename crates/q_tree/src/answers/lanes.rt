ghost use Rattle.std.specs.Prelude.{◌≡◌};
ghost use Rattle.q_tree.specs.answers.Lanes.{is_prio, lane_below, lane_from, lane_to, level_of, limit_along, limit_of};

use crate::answers::ways::Link;
use crate::node::{Discipline, Node, child_at};
use crate::tree::Tree;
use q_codel::Limit;
use q_model::Place;

/// A fifo whose packets no other packet passes, in numbers.
#[derive(Clone, Copy, PartialEq, Eq, Debug)]
pub struct Lane {
    /// The tbf at the root, if there is one.
    pub link: Option<Link>,
    /// How much the fifo holds.
    pub limit: Limit,
}

impl Tree {
    /// The fifo in this place, if it is in line: at the root, or in the first band of a prio that is in line, with a tbf at the root or
    /// none. `None` where something else is in the place or on the path, or a tbf anywhere below the root. It takes no memory.
    pub fn lane_to(&self, place: Place) -> Option<Lane>
        ensures { result ≡ lane_to place self.now.tree.root }
    {
        let path = self.qdiscs().place_path(place)?;
        self.root.lane_from(&path)
    }

    /// The level of the bucket of a tbf at the root at the time that the tree was given last, in units of 1/(8*10^9) byte; `None` where
    /// something else is at the root.
    pub fn level(&self) -> Option<u128>
        ensures { result ≡ level_of self.now.clock self.now.tree.root.own.discipline }
    {
        let Discipline::Tbf { bucket, .. } = &self.root.discipline else {
            return None;
        };
        Some(bucket.level_at(self.clock))
    }
}

impl Node {
    // The [`Lane`] from the root down along this path.
    fn lane_from(&self, path: &[usize]) -> Option<Lane>
        ensures { result ≡ lane_from path.now self.now self.now.own.discipline }
    {
        match &self.discipline {
            Discipline::Tbf { bucket, child, .. } => {
                let (&place, rest) = path.split_first()?;
                let link = Link {
                    handle: self.handle?,
                    rate: bucket.rate(),
                    burst: bucket.burst(),
                };
                if place != 0 {
                    return None;
                }
                return child.lane_below(Some(link), rest);
            }
            Discipline::Fifo(_)
            | Discipline::Prio { .. }
            | Discipline::Drr { .. }
            | Discipline::FqCodel(_) => return self.lane_below(None, path),
        }
    }

    // The same from a node down that no other tbf is to be below.
    fn lane_below(&self, link: Option<Link>, path: &[usize]) -> Option<Lane>
        ensures { result ≡ lane_below link path.now self.now }
    {
        if self.has_tbf() {
            return None;
        }
        Some(Lane {
            link,
            limit: self.limit_along(path)?,
        })
    }

    // The limit of the fifo at the end of a path down, if that leads through first bands alone.
    fn limit_along(&self, path: &[usize]) -> Option<Limit>
        ensures { result ≡ limit_along path.now self.now }
    {
        let Some((&place, rest)) = path.split_first() else {
            return self.limit();
        };
        if place != 0 || !self.is_prio() {
            return None;
        }
        child_at(self.children(), place)?.limit_along(rest)
    }

    /// The limit, if this is a fifo.
    pub(crate) fn limit(&self) -> Option<Limit>
        ensures { result ≡ limit_of self.now.own.discipline }
    {
        match &self.discipline {
            Discipline::Fifo(fifo) => return Some(fifo.limit()),
            Discipline::Prio { .. }
            | Discipline::Tbf { .. }
            | Discipline::Drr { .. }
            | Discipline::FqCodel(_) => return None,
        }
    }

    // Whether this is a prio.
    fn is_prio(&self) -> bool
        ensures { result ≡ is_prio self.now.own.discipline }
    {
        match &self.discipline {
            Discipline::Prio { .. } => return true,
            Discipline::Fifo(_)
            | Discipline::Tbf { .. }
            | Discipline::Drr { .. }
            | Discipline::FqCodel(_) => return false,
        }
    }
}
