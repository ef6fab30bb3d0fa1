//! Which flows have their turn next: the lists of new and of old flows.
ghost use Rattle.std.specs.Prelude.{◌≡◌, ◌+◌, ◌<◌, ◌≤◌, ◌==◌, not, [], ◌∷◌, ◌++◌, length, set, drop, slice_get, pos, false, if◌then◌else◌, IfSome, IfOk};
ghost use Rattle.q_fqcodel.specs.Put.{is_listed};

use crate::ends::Ends;
use crate::entry::Entry;
use crate::link::Link;
use crate::links::{append_flow, first_of, move_first_to_end, remove_first, write_credits};
use crate::place::Place;
use std::alloc::{AllocError, Global};
use std::marker::Model;

/// The lists of new and of old flows (RFC 8290, section 4.2), linked through the flows' own links: each call takes the same
/// few steps however many flows are listed, but for `new` and `clear`.
///
/// A contract sees the entries of both lists, front first, and how many flows there are.
#[derive(Drop)]
pub(crate) struct ActiveLists {
    // The link of each flow.
    links: Vec<Link>,
    new_flows: Ends,
    old_flows: Ends,
}

impl Model for ActiveLists {
    ghost use Rattle.std.specs.Prelude.{length};
    ghost use Rattle.q_fqcodel.specs.Links.{ListsState, entries_in, IsLists};

    ghost Value = { ListsState };

    ghost view = { λ a. record {
      new_flows = entries_in a.links.items a.new_flows;
      old_flows = entries_in a.links.items a.old_flows;
      room = length a.links.items;
    } };

    ghost invariant = { λ a. IsLists a.links.items a.new_flows a.old_flows };
}

impl ActiveLists {
    /// Both lists empty, for so many flows.
    pub(crate) fn new(alloc: Global, flows: u32) -> Result<ActiveLists, AllocError>
        requires { flows ≤ 65536 }
        ensures { IfOk result (λ a. a ≡ record { new_flows = []; old_flows = []; room = flows }) }
    {
        let links = vec![in alloc; Link::unlisted(); flows as usize]?;
        Ok(ActiveLists {
            links,
            new_flows: Ends::none(),
            old_flows: Ends::none(),
        })
    }

    /// Puts a flow that is in neither list at the end of the new one, with one quantum.
    pub(crate) fn enlist(&mut self, flow: u32, quantum: u32)
        requires within { flow < self.old.room }
        requires few { is_listed flow (self.old.new_flows ++ self.old.old_flows) ≡ false → length self.old.new_flows < 65536 }
        ensures { self.new ≡ record self.old {
          new_flows = if is_listed flow (self.old.new_flows ++ self.old.old_flows) then self.old.new_flows
              else self.old.new_flows ++ record { flow = flow; credits = pos quantum } ∷ [];
        } }
    {
        if self.is_listed(flow) {
            return;
        }
        self.new_flows = append_flow(
            &mut self.links,
            self.new_flows,
            Place::New,
            flow,
            quantum as i64,
        );
    }

    // Whether a flow is in a list.
    fn is_listed(&self, flow: u32) -> bool
        requires { flow < self.now.room }
        ensures { result ≡ is_listed flow (self.now.new_flows ++ self.now.old_flows) }
    {
        match self.links[flow as usize].place {
            Place::Unlisted => false,
            Place::New | Place::Old => true,
        }
    }

    pub(crate) fn has_new(&self) -> bool
        ensures { result ≡ not (length self.now.new_flows == 0) }
    {
        self.new_flows.count != 0
    }

    pub(crate) fn has_old(&self) -> bool
        ensures { result ≡ not (length self.now.old_flows == 0) }
    {
        self.old_flows.count != 0
    }

    /// How many flows are in the new list, and how many in the old one.
    pub(crate) fn lengths(&self) -> (usize, usize)
        ensures new { result.0 ≡ length self.now.new_flows }
        ensures old { result.1 ≡ length self.now.old_flows }
    {
        (self.new_flows.count as usize, self.old_flows.count as usize)
    }

    /// The flow in front of the new list.
    pub(crate) fn first_new(&self) -> Option<Entry>
        ensures { result ≡ slice_get self.now.new_flows 0 }
    {
        first_of(&self.links, self.new_flows)
    }

    /// The flow in front of the old list.
    pub(crate) fn first_old(&self) -> Option<Entry>
        ensures { result ≡ slice_get self.now.old_flows 0 }
    {
        first_of(&self.links, self.old_flows)
    }

    /// Moves the flow in front of the new list to the end of the old one, with the credits of `entry`, which is its own.
    pub(crate) fn move_to_old(&mut self, entry: Entry)
        requires own { IfSome (slice_get self.old.new_flows 0) (λ e. e.flow ≡ entry.flow) }
        requires some { 0 < length self.old.new_flows }
        requires few { length self.old.old_flows < 65536 }
        ensures { self.new ≡ record self.old { new_flows = drop 1 self.old.new_flows; old_flows = self.old.old_flows ++ entry ∷ [] } }
    {
        self.new_flows = remove_first(&mut self.links, self.new_flows);
        self.old_flows = append_flow(
            &mut self.links,
            self.old_flows,
            Place::Old,
            entry.flow,
            entry.credits,
        );
    }

    /// Moves the flow in front of the old list to its end, with the credits of `entry`, which is its own.
    pub(crate) fn rotate(&mut self, entry: Entry)
        requires own { IfSome (slice_get self.old.old_flows 0) (λ e. e.flow ≡ entry.flow) }
        requires some { 0 < length self.old.old_flows }
        requires few { length self.old.old_flows ≤ 65536 }
        ensures { self.new ≡ record self.old { old_flows = drop 1 self.old.old_flows ++ entry ∷ [] } }
    {
        // A flow that is alone there stays where it is.
        if self.old_flows.count == 1 {
            return write_credits(&mut self.links, entry);
        }
        self.old_flows = move_first_to_end(&mut self.links, self.old_flows, entry);
    }

    /// Takes the flow in front of the old list out of it.
    pub(crate) fn remove_old(&mut self)
        requires { 0 < length self.old.old_flows }
        ensures { self.new ≡ record self.old { old_flows = drop 1 self.old.old_flows } }
    {
        self.old_flows = remove_first(&mut self.links, self.old_flows);
    }

    /// Writes the flow in front: of the new list, or of the old one where the new one is empty.
    pub(crate) fn write_front(&mut self, entry: Entry)
        requires own { IfSome (slice_get (self.old.new_flows ++ self.old.old_flows) 0) (λ e. e.flow ≡ entry.flow) }
        requires some { 0 < length self.old.new_flows + length self.old.old_flows }
        ensures { self.new ≡ record self.old {
          new_flows = set self.old.new_flows 0 entry;
          old_flows = if length self.old.new_flows == 0 then set self.old.old_flows 0 entry else self.old.old_flows;
        } }
    {
        write_credits(&mut self.links, entry);
    }

    /// Takes every flow out of its list.
    pub(crate) fn clear(&mut self)
        ensures { self.new ≡ record self.old { new_flows = []; old_flows = [] } }
    {
        self.links.fill(Link::unlisted());
        self.new_flows = Ends::none();
        self.old_flows = Ends::none();
    }
}
