ghost use Rattle.std.specs.Prelude.{◌≡◌, ◌<◌, length, [], ◌∷◌, ◌++◌, slice_get, slice_set, slice_index_or, option_map, Some, IsTrue, OnOk, OnErr, false};
ghost use Rattle.std.specs.List.{remove};
ghost use Rattle.q_drr.specs.States.{no_state, has_state, place_of_state, named, kept_of, name_in};

use indexmap::IndexMap;
use std::alloc::{AllocError, Global};
use std::marker::Model;

/// The classes in order of adding. A look-up by name takes one hash, and one by place none.
///
/// A contract sees the list of their states, each with its name.
#[derive(Drop)]
pub(crate) struct ClassTable {
    states: IndexMap<u16, ClassState>,
}

impl Model for ClassTable {
    ghost use Rattle.std.specs.Prelude.{List, map};
    ghost use Rattle.q_drr.specs.States.{NamedState, named_entry};

    ghost Value = { List NamedState };

    ghost view = { λ t. map named_entry t.states.entries };
}

/// What is kept of a class beside its name. Deficit and grants have a meaning only while the class is active.
#[derive(Clone, Copy)]
pub(crate) struct ClassState {
    /// Bytes of one grant.
    pub(crate) quantum: u32,
    /// Bytes that it may send before its next grant.
    pub(crate) deficit: u64,
    /// Bytes granted since it became active.
    pub(crate) granted: u64,
}

impl ClassTable {
    pub(crate) fn new(alloc: Global) -> ClassTable
        ensures { result ≡ [] }
    {
        ClassTable {
            states: IndexMap::new(alloc),
        }
    }

    pub(crate) fn count(&self) -> usize
        ensures { result ≡ length self.now }
    {
        self.states.len()
    }

    pub(crate) fn place_of(&self, name: u16) -> Option<usize>
        ensures { result ≡ place_of_state name self.now }
    {
        self.states.get_index_of(&name)
    }

    pub(crate) fn name_at(&self, place: usize) -> Option<u16>
        ensures { result ≡ option_map (λ state. state.name) (slice_get self.now place) }
    {
        Some(*self.states.get_index(place)?.0)
    }

    pub(crate) fn has(&self, name: u16) -> bool
        ensures { result ≡ has_state name self.now }
    {
        self.place_of(name).is_some()
    }

    /// The place of a class that is there.
    pub(crate) fn find(&self, name: u16) -> usize
        requires { IsTrue (has_state name self.now) }
        ensures { place_of_state name self.now ≡ Some result }
    {
        match self.place_of(name) {
            Some(place) => place,
            None => unreachable!(),
        }
    }

    pub(crate) fn get(&self, place: usize) -> ClassState
        requires { place < length self.now }
        ensures { result ≡ kept_of (slice_index_or self.now place no_state) }
    {
        self.states[place]
    }

    /// The class in this place keeps its name, and nothing else of what it was.
    pub(crate) fn put(&mut self, place: usize, state: ClassState)
        requires { place < length self.old }
        ensures { self.new ≡ slice_set self.old place (named (name_in self.old place) state) }
    {
        self.states[place] = state;
    }

    pub(crate) fn add(&mut self, name: u16, state: ClassState) -> Result<(), AllocError>
        requires { has_state name self.old ≡ false }
        ensures ok { OnOk result (self.new ≡ self.old ++ named name state ∷ []) }
        ensures err { OnErr result (self.new ≡ self.old) }
    {
        let Ok(_) = self.states.insert(name, state) else {
            return Err(AllocError);
        };
        Ok(())
    }

    /// Takes a class away. Those added after it move down by one place.
    pub(crate) fn remove(&mut self, place: usize)
        requires { place < length self.old }
        ensures { self.new ≡ remove self.old place }
    {
        self.states.shift_remove_index(place);
    }
}
