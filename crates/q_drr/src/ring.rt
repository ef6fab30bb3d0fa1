ghost use Rattle.std.specs.Prelude.{◌≡◌, ℕ, suc, Some, List, ◌<◌, ◌≤◌, ◌-◌, ◌^◌, map, [], ◌∷◌, ◌++◌, IsTrue, OnOk, OnErr, true, false, length, slice_get, take, drop};
ghost use Rattle.q_drr.specs.Links.{Circle, is_among, without, moved_down, next_of, before_of, IsCircle, IsJoined, IsMarked, HaveMovedDown};

use std::alloc::{AllocError, Global};
use std::marker::Model;

/// The neighbours of a place in the ring, and whether it is in it.
#[derive(Clone, Copy)]
pub(crate) struct Link {
    next: u16,
    before: u16,
    here: bool,
}

/// Places of classes in a circle. Whether a place is in it, the end, the front and any member are reached in one step.
///
/// A contract sees the members in order, front first, and the bound below which there is room for a place.
#[derive(Drop)]
pub(crate) struct Ring {
    /// The links of each place, below the room.
    links: Vec<Link>,
    /// The first member, where there is one.
    front: u16,
    count: u32,
}

impl Model for Ring {
    ghost use Rattle.std.specs.Prelude.{◌<◌, ◌^◌, length};
    ghost use Rattle.q_drr.specs.Links.{Circle};

    ghost Value = { Circle };

    ghost use Rattle.q_drr.specs.Links.{walk, next_of, IsCircle};

    ghost view = { λ r. record { order = walk (next_of r.links.items) r.count r.front; room = length r.links.items } };

    ghost invariant = { λ r. IsCircle r.links.items (walk (next_of r.links.items) r.count r.front) };
}

impl Ring {
    pub(crate) fn new(alloc: Global) -> Ring
        ensures { result ≡ record { order = []; room = 0 } }
    {
        Ring {
            links: Vec::new(alloc),
            front: 0,
            count: 0,
        }
    }

    /// Makes room for a place.
    pub(crate) fn reserve(&mut self, place: usize) -> Result<(), AllocError>
        requires { place < 2 ^ 16 }
        ensures order { self.new.order ≡ self.old.order }
        ensures grows { self.old.room ≤ self.new.room }
        ensures ok { OnOk result (place < self.new.room) }
    {
        if self.links.len() <= place {
            let asleep = Link {
                next: 0,
                before: 0,
                here: false,
            };
            self.links.resize(place + 1, asleep)?;
        }
        Ok(())
    }

    pub(crate) fn len(&self) -> usize
        ensures value { result ≡ length self.now.order }
        ensures bound { result < 2 ^ 32 }
    {
        self.count as usize
    }

    pub(crate) fn contains(&self, place: usize) -> bool
        requires { place < self.now.room }
        ensures { result ≡ is_among place self.now.order }
    {
        self.links[place].here
    }

    pub(crate) fn front(&self) -> Option<usize>
        ensures { result ≡ slice_get self.now.order 0 }
    {
        if self.count == 0 {
            None
        } else {
            Some(self.front as usize)
        }
    }

    /// The member after this one. Behind the last is the first.
    pub(crate) fn after(&self, place: usize) -> usize
        requires { IsTrue (is_among place self.now.order) }
        ensures next { (k : ℕ) → slice_get self.now.order k ≡ Some place → suc k < length self.now.order → slice_get self.now.order (suc k) ≡ Some result }
        ensures around { (k : ℕ) → slice_get self.now.order k ≡ Some place → suc k ≡ length self.now.order → slice_get self.now.order 0 ≡ Some result }
    {
        self.links[place].next as usize
    }

    /// Puts a place at the end.
    pub(crate) fn push(&mut self, place: usize)
        requires room { place < self.old.room }
        requires fresh { is_among place self.old.order ≡ false }
        ensures { self.new ≡ record self.old { order = self.old.order ++ place ∷ [] } }
    {
        if self.count == 0 {
            self.front = place as u16;
            self.count = 1;
            start(&mut self.links, self.front);
            return;
        }
        append(&mut self.links, self.front, place as u16);
        self.count += 1;
    }

    /// Sends the front to the end.
    pub(crate) fn rotate(&mut self)
        requires { 0 < length self.old.order }
        ensures { self.new ≡ record self.old { order = drop 1 self.old.order ++ take 1 self.old.order } }
    {
        self.front = self.links[self.front as usize].next;
    }

    /// Takes a place out; the others keep their order.
    pub(crate) fn remove(&mut self, place: usize)
        requires { IsTrue (is_among place self.old.order) }
        ensures { self.new ≡ record self.old { order = without place self.old.order } }
    {
        let next = detach(&mut self.links, place as u16);
        self.count -= 1;
        if self.front as usize == place {
            self.front = next;
        }
    }

    /// Moves the places above a gap, which is no member, down by one, and takes away its room.
    pub(crate) fn close_gap(&mut self, gap: usize)
        requires inside { gap < self.old.room }
        requires empty { is_among gap self.old.order ≡ false }
        ensures { self.new ≡ record { order = map (moved_down gap) self.old.order; room = self.old.room - 1 } }
    {
        self.links.remove(gap);
        let gap = gap as u16;
        move_links_down(&mut self.links, gap);
        self.front = move_down(self.front, gap);
    }
}

/// The number of a place once a gap below it is closed.
fn move_down(place: u16, gap: u16) -> u16
    ensures { result ≡ moved_down gap place }
{
    if gap < place { place - 1 } else { place }
}

/// Lets each link lead to its neighbours' new numbers once a gap is closed.
fn move_links_down(links: &mut [Link], gap: u16)
    ensures { HaveMovedDown gap links.old links.new }
{
    for link in links.iter_mut() {
        link.next = move_down(link.next, gap);
        link.before = move_down(link.before, gap);
    }
}

/// Makes a place the only one in the circle.
fn start(links: &mut [Link], place: u16)
    requires { place < length links.old }
    ensures len { length links.new ≡ length links.old }
    ensures circle { IsCircle links.old [] → IsCircle links.new (place ∷ []) }
{
    join(links, place, place);
    mark(links, place, true);
}

/// Puts a place before the first, which is behind the last.
fn append(links: &mut [Link], first: u16, place: u16)
    requires first { first < length links.old }
    requires last { before_of links.old first < length links.old }
    requires inside { place < length links.old }
    ensures len { length links.new ≡ length links.old }
    ensures circle { (others : List ℕ)
        → IsCircle links.old (first ∷ others)
        → is_among place (first ∷ others) ≡ false
        → IsCircle links.new (first ∷ others ++ place ∷ []) }
{
    let last = links[first as usize].before;
    join(links, last, place);
    join(links, place, first);
    mark(links, place, true);
}

/// Takes a place out, and returns the one after it.
fn detach(links: &mut [Link], place: u16) -> u16
    requires inside { place < length links.old }
    requires next { next_of links.old place < length links.old }
    requires before { before_of links.old place < length links.old }
    ensures next { result ≡ next_of links.old place }
    ensures len { length links.new ≡ length links.old }
    ensures circle { (others : List ℕ) → IsCircle links.old (place ∷ others) → IsCircle links.new others }
{
    let Link { next, before, .. } = links[place as usize];
    join(links, before, next);
    mark(links, place, false);
    next
}

/// Makes `b` the one after `a`.
fn join(links: &mut [Link], a: u16, b: u16)
    requires first { a < length links.old }
    requires second { b < length links.old }
    ensures { IsJoined links.old links.new a b }
{
    links[a as usize].next = b;
    links[b as usize].before = a;
}

/// Says whether a place is in the circle.
fn mark(links: &mut [Link], place: u16, here: bool)
    requires { place < length links.old }
    ensures { IsMarked links.old links.new place here }
{
    links[place as usize].here = here;
}
