ghost use Rattle.std.specs.Prelude.{◌≡◌, ℕ, ◌<◌, ◌≤◌, ◌+◌, IsTrue, OnOk, OnErr, false, length, is_some, option_and_then, ◌^◌};
ghost use Rattle.q_drr.specs.Waiting.{deficits_ahead};
ghost use Rattle.q_drr.specs.Schedule.{Schedule, no_classes, has_class, place_of, name_at, quantum_of, is_active, deficit_of, granted_of, added, woken, asleep, removed, with_quantum, front_of, turn_answer, turned, IsLawful};
ghost use Rattle.q_drr.specs.Rounds.{front_need, rounds_given, front_given, AreWithin, IsFrontWithin};

use crate::class_table::{ClassState, ClassTable};
use crate::ring::Ring;
use std::alloc::{AllocError, Global};
use std::marker::Model;

/// The classes of a deficit round robin (M. Shreedhar and G. Varghese, "Efficient Fair Queuing Using Deficit
/// Round-Robin", 1995; tc-drr(8)), and the list of those that are active.
///
/// A class is named by a number of 16 bits, and has a place, its number in order of adding from 0. A class takes as much
/// memory whatever its name is.
///
/// A contract sees the record `Schedule`: the classes with their quanta in order of adding and, for those active, their
/// place, deficit and grants.
#[derive(Drop)]
pub struct Active {
    table: ClassTable,
    ring: Ring,
    max_len: u16,
    turns: u64,
}

impl Model for Active {
    ghost use Rattle.q_drr.specs.Schedule.{Schedule};

    ghost Value = { Schedule };

    ghost use Rattle.q_drr.specs.Kept.{shown, IsSound};
    ghost use Rattle.q_drr.specs.States.{names_in};

    ghost view = { λ a. shown a.max_len a.turns a.table (names_in a.table a.ring.order) };

    ghost invariant = { λ a. IsSound a.max_len a.turns a.table a.ring };
}

/// What a turn did.
#[derive(Clone, Copy, PartialEq, Eq, Debug)]
pub enum Turn {
    /// The deficit covers the head: it fell by the head's length, and the class is still in front.
    Send,
    /// It does not: the class got one quantum and went to the end of the list.
    Granted,
}

impl Active {
    /// No classes yet. `max_len` is the length in bytes of the longest packet, at least 1.
    pub fn new(alloc: Global, max_len: u16) -> Active
        requires { 1 ≤ max_len }
        ensures { result ≡ no_classes max_len }
    {
        Active {
            table: ClassTable::new(alloc),
            ring: Ring::new(alloc),
            max_len,
            turns: 0,
        }
    }

    /// The number of classes, at most 65536.
    pub fn count(&self) -> usize
        ensures value { result ≡ length self.now.classes }
        ensures bound { result ≤ 2 ^ 16 }
        ensures lawful { IsLawful self.now }
    {
        self.table.count()
    }

    /// Whether there is a class of this name.
    pub fn has(&self, class: u16) -> bool
        ensures value { result ≡ has_class class self.now.classes }
        ensures lawful { IsLawful self.now }
    {
        self.table.has(class)
    }

    /// The place of a class in order of adding, from 0; `None` where there is none of this name.
    pub fn place_of(&self, class: u16) -> Option<usize>
        ensures value { result ≡ place_of class self.now.classes }
        ensures lawful { IsLawful self.now }
    {
        self.table.place_of(class)
    }

    /// The name of the class in this place in order of adding; `None` past the last.
    pub fn class_at(&self, place: usize) -> Option<u16>
        ensures value { result ≡ name_at place self.now.classes }
        ensures lawful { IsLawful self.now }
    {
        self.table.name_at(place)
    }

    /// Adds a class, which is inactive. `quantum` is the bytes of one grant, at least 1.
    ///
    /// # Errors
    ///
    /// `AllocError` if an allocation fails; nothing has changed then.
    pub fn add(&mut self, class: u16, quantum: u32) -> Result<(), AllocError>
        requires fresh { has_class class self.old.classes ≡ false }
        requires positive { 1 ≤ quantum }
        ensures ok { OnOk result (self.new ≡ added class quantum self.old) }
        ensures err { OnErr result (self.new ≡ self.old) }
    {
        self.ring.reserve(self.table.count())?;
        self.table.add(
            class,
            ClassState {
                quantum,
                deficit: 0,
                granted: 0,
            },
        )?;
        Ok(())
    }

    /// Removes a class, from the active list too. It takes time in proportion to the number of classes.
    pub fn remove(&mut self, class: u16)
        requires { IsTrue (has_class class self.old.classes) }
        ensures { self.new ≡ removed class self.old }
    {
        let place = self.table.find(class);
        if self.ring.contains(place) {
            self.ring.remove(place);
        }
        self.ring.close_gap(place);
        self.table.remove(place);
    }

    /// Makes a class active: it goes to the end of the active list, with a deficit of one quantum. One that is active stays as it is.
    pub fn wake(&mut self, class: u16)
        requires { IsTrue (has_class class self.old.classes) }
        ensures { self.new ≡ woken class self.old }
    {
        let place = self.table.find(class);
        self.wake_at(place);
    }

    /// `wake` of the class in a place in order of adding, with no look-up of its name.
    pub fn wake_at(&mut self, place: usize)
        requires { place < length self.old.classes }
        ensures { (class : ℕ) → name_at place self.old.classes ≡ Some class → self.new ≡ woken class self.old }
    {
        if self.ring.contains(place) {
            return;
        }
        let state = self.table.get(place);
        self.table.put(
            place,
            ClassState {
                deficit: u64::from(state.quantum),
                granted: 0,
                ..state
            },
        );
        self.ring.push(place);
    }

    /// Makes a class inactive: it leaves the active list. One that is inactive stays so.
    pub fn sleep(&mut self, class: u16)
        requires { IsTrue (has_class class self.old.classes) }
        ensures { self.new ≡ asleep class self.old }
    {
        let place = self.table.find(class);
        self.sleep_at(place);
    }

    /// `sleep` of the class in a place in order of adding, with no look-up of its name.
    pub fn sleep_at(&mut self, place: usize)
        requires { place < length self.old.classes }
        ensures { (class : ℕ) → name_at place self.old.classes ≡ Some class → self.new ≡ asleep class self.old }
    {
        if self.ring.contains(place) {
            self.ring.remove(place);
        }
    }

    /// The class whose turn it is; `None` where none is active.
    pub fn front(&self) -> Option<u16>
        ensures front { result ≡ front_of self.now }
        ensures lawful { IsLawful self.now }
    {
        self.table.name_at(self.ring.front()?)
    }

    /// The place in order of adding of the class whose turn it is, with no look-up of its name; `None` where none is
    /// active.
    pub fn front_place(&self) -> Option<usize>
        ensures place { result ≡ option_and_then (λ class. place_of class self.now.classes) (front_of self.now) }
        ensures found { is_some result ≡ is_some (front_of self.now) }
        ensures lawful { IsLawful self.now }
    {
        self.ring.front()
    }

    /// The number of active classes.
    pub fn active_count(&self) -> usize
        ensures { result ≡ length self.now.active }
    {
        self.ring.len()
    }

    /// Gives the class in front its turn, where the packet at the head of its queue has `head_len` bytes, at most the
    /// `max_len` of `new`.
    ///
    /// It sends where the head is no longer than the deficit, which falls by the head's length, and stays in front. Else
    /// the deficit grows by one quantum, and it goes to the end.
    pub fn turn(&mut self, head_len: u16) -> Turn
        requires front { 0 < length self.old.active }
        requires in_range { head_len ≤ self.old.max_len }
        ensures answer { result ≡ turn_answer head_len self.old.active }
        ensures after { self.new ≡ turned head_len self.old }
    {
        self.turns = self.turns.saturating_add(1);
        let Some(place) = self.ring.front() else {
            unreachable!()
        };
        let state = self.table.get(place);
        let head_len = u64::from(head_len);
        if head_len <= state.deficit {
            self.table.put(
                place,
                ClassState {
                    deficit: state.deficit - head_len,
                    ..state
                },
            );
            return Turn::Send;
        }
        let quantum = u64::from(state.quantum);
        self.table.put(
            place,
            ClassState {
                deficit: state.deficit + quantum,
                granted: state.granted.saturating_add(quantum),
                ..state
            },
        );
        self.ring.rotate();
        Turn::Granted
    }

    /// How many grants the class in front needs until its deficit covers a head of so many bytes.
    pub fn grants_needed(&self, head_len: u16) -> u64
        requires front { 0 < length self.now.active }
        ensures value { result ≡ front_need head_len self.now }
        ensures lawful { IsLawful self.now }
    {
        let Some(place) = self.ring.front() else {
            unreachable!()
        };
        let state = self.table.get(place);
        let head_len = u64::from(head_len);
        if head_len <= state.deficit {
            return 0;
        }
        (head_len - state.deficit).div_ceil(u64::from(state.quantum))
    }

    /// Grants so many quanta to each active class at once: what so many rounds of turns come to, in each of which every class is
    /// granted. No deficit may pass what turns could leave, a quantum and `max_len`. It takes time in proportion to the number of
    /// active classes, however many rounds there are.
    pub fn grant_rounds(&mut self, rounds: u64)
        requires within { AreWithin rounds self.old }
        ensures { self.new ≡ rounds_given rounds self.old }
    {
        for _passed in 0..self.ring.len() {
            self.grant_front(rounds);
        }
    }

    // Grants so many quanta to the class in front, which goes to the end.
    fn grant_front(&mut self, grants: u64)
        requires front { 0 < length self.old.active }
        requires within { IsFrontWithin grants self.old }
        ensures { self.new ≡ front_given grants self.old }
    {
        self.turns = self.turns.saturating_add(grants);
        let Some(place) = self.ring.front() else {
            unreachable!()
        };
        let state = self.table.get(place);
        let bytes = grants * u64::from(state.quantum);
        self.table.put(
            place,
            ClassState {
                deficit: state.deficit + bytes,
                granted: state.granted.saturating_add(bytes),
                ..state
            },
        );
        self.ring.rotate();
    }

    /// Sets the bytes of one grant, at least 1. The deficit is cut to at most `quantum + max_len - 1`.
    pub fn set_quantum(&mut self, class: u16, quantum: u32)
        requires there { IsTrue (has_class class self.old.classes) }
        requires positive { 1 ≤ quantum }
        ensures { self.new ≡ with_quantum class quantum self.old }
    {
        let place = self.table.find(class);
        let state = self.table.get(place);
        let most = u64::from(quantum) + u64::from(self.max_len) - 1;
        self.table.put(
            place,
            ClassState {
                quantum,
                deficit: state.deficit.min(most),
                ..state
            },
        );
    }

    /// The bytes of one grant.
    pub fn quantum(&self, class: u16) -> u32
        requires { IsTrue (has_class class self.now.classes) }
        ensures { result ≡ quantum_of class self.now.classes }
    {
        self.table.get(self.table.find(class)).quantum
    }

    /// Whether a class is in the active list.
    pub fn is_active(&self, class: u16) -> bool
        requires { IsTrue (has_class class self.now.classes) }
        ensures { result ≡ is_active class self.now.active }
    {
        self.ring.contains(self.table.find(class))
    }

    /// The bytes that a class may send before its next grant; 0 if it is inactive.
    pub fn deficit(&self, class: u16) -> u64
        requires { IsTrue (has_class class self.now.classes) }
        ensures value { result ≡ deficit_of class self.now.active }
        ensures bound { result < quantum_of class self.now.classes + self.now.max_len }
    {
        let place = self.table.find(class);
        if self.ring.contains(place) {
            self.table.get(place).deficit
        } else {
            0
        }
    }

    /// The bytes that the other classes may send of their deficits before a packet of this class, which is active or comes to be so now: all of
    /// those before it in the active list, and of each behind it what is above its own quantum. It takes time in proportion to the number of
    /// active classes.
    pub fn deficits_ahead(&self, class: u16) -> u128
        requires { IsTrue (has_class class self.now.classes) }
        ensures value { result ≡ deficits_ahead class (woken class self.now).active self.now.classes }
        ensures bound { result ≤ 2 ^ 97 }
    {
        let own = self.table.find(class);
        let Some(mut place) = self.ring.front() else {
            return 0;
        };
        let mut bytes = 0u128;
        let mut is_behind = false;
        for _passed in 0..self.ring.len() {
            let state = self.table.get(place);
            if is_behind {
                bytes += u128::from(state.deficit.saturating_sub(u64::from(state.quantum)));
            } else if place == own {
                is_behind = true;
            } else {
                bytes += u128::from(state.deficit);
            }
            place = self.ring.after(place);
        }
        bytes
    }

    /// The bytes granted to a class since it became active, without the quantum with which it began; 0 if it is inactive. It stays
    /// at 2^64 - 1 once it is there.
    pub fn granted(&self, class: u16) -> u64
        requires { IsTrue (has_class class self.now.classes) }
        ensures { result ≡ granted_of class self.now.active }
    {
        let place = self.table.find(class);
        if self.ring.contains(place) {
            self.table.get(place).granted
        } else {
            0
        }
    }

    /// The number of turns. It stays at 2^64 - 1 once it is there.
    pub fn turns(&self) -> u64
        ensures { result ≡ self.now.turns }
    {
        self.turns
    }
}
