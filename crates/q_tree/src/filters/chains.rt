ghost use Rattle.std.specs.Prelude.{◌≡◌, ◌<◌, ◌^◌, IfOk, List, Some, length, replicate, slice_get, suc, ℕ};
ghost use Rattle.q_tree.specs.filters.Chains.{IsNext};
ghost use Rattle.q_tree.specs.filters.ChainsSeen.{AreFirsts, AreNexts};

use std::alloc::{AllocError, Global};
use std::marker::Model;

/// Places side by side, each with a home: those of one home are found in rising order, each from the one before.
///
/// A contract sees the home of each place.
#[derive(Drop)]
pub(crate) struct Chains {
    homes: Vec<u16>,
    /// The first place of each home, or the number of places where it has none.
    firsts: Vec<u16>,
    /// Behind each place the next of its home, or the number of places.
    nexts: Vec<u16>,
}

impl Model for Chains {
    ghost use Rattle.std.specs.Prelude.{List, ℕ};
    ghost use Rattle.q_tree.specs.filters.ChainsSeen.{IsChained};

    ghost Value = { List ℕ };

    ghost view = { λ a. a.homes.items };

    ghost invariant = { IsChained };
}

impl Chains {
    /// The places with these homes, which are below `count`.
    ///
    /// # Errors
    ///
    /// `AllocError` if an allocation fails.
    pub(crate) fn new(alloc: Global, homes: Vec<u16>, count: usize) -> Result<Chains, AllocError>
        requires few { length homes.items < 2 ^ 16 }
        requires known { (j home : ℕ) → slice_get homes.items j ≡ Some home → home < count }
        ensures { IfOk result (λ chains. chains ≡ homes.items) }
    {
        let nobody = homes.len() as u16;
        let mut firsts = vec![in alloc; nobody; count]?;
        let mut nexts = vec![in alloc; nobody; homes.len()]?;
        link(&homes, &mut firsts, &mut nexts);
        Ok(Chains {
            homes,
            firsts,
            nexts,
        })
    }

    /// The first place of this home, or the number of places where it has none.
    #[inline(always)]
    pub(crate) fn first(&self, home: usize) -> usize
        ensures { IsNext self.now home 0 result }
    {
        if home >= self.firsts.len() {
            return self.homes.len();
        }
        usize::from(self.firsts[home])
    }

    /// The next place of this home behind this one of it, or the number of places where none follows.
    #[inline(always)]
    pub(crate) fn next(&self, place: usize) -> usize
        requires { place < length self.now }
        ensures { (home : ℕ) → slice_get self.now place ≡ Some home → IsNext self.now home (suc place) result }
    {
        usize::from(self.nexts[place])
    }
}

// Links the places from the last to the first, each before those of its home.
fn link(homes: &[u16], firsts: &mut [u16], nexts: &mut [u16])
    requires few { length homes.now < 2 ^ 16 }
    requires known { (j home : ℕ) → slice_get homes.now j ≡ Some home → home < length firsts.old }
    requires nobody { firsts.old ≡ replicate (length firsts.old) (length homes.now) }
    requires long { length nexts.old ≡ length homes.now }
    ensures firsts { AreFirsts homes.now 0 firsts.new }
    ensures nexts { AreNexts homes.now 0 nexts.new }
    ensures same_firsts { length firsts.new ≡ length firsts.old }
    ensures same_nexts { length nexts.new ≡ length nexts.old }
{
    let mut place = homes.len();
    while place > 0 {
        place -= 1;
        let home = usize::from(homes[place]);
        nexts[place] = firsts[home];
        firsts[home] = place as u16;
    }
}
