//! The active list of deficit round robin.
ghost use Rattle.std.specs.Prelude.{◌≡◌, ◌<◌, ◌≤◌, All, length, IfSome, OnOk};
ghost use Rattle.q_drr.specs.Schedule.{added, no_classes};

use q_drr::laws::{Met, take_by_turns};
use q_drr::{Active, Turn};
use std::alloc::Global;
use std::marker::Model;
use std::process::Abort;
use std::test::Fail;

// The length of the longest packet.
const LONGEST: u16 = 1514;

// A call, and what it has to answer. A class that it changes or asks for has to be there.
#[derive(Clone, Copy)]
enum Call {
    // The class, which is not there yet, and its quantum.
    Add(u16, u32),
    Remove(u16),
    Wake(u16),
    Sleep(u16),
    // The class, and its quantum from now on.
    SetQuantum(u16, u32),
    // The length of the head of the class in front.
    Turn(u16, Turn),
    Front(Option<u16>),
    FrontPlace(Option<usize>),
    // How many classes are active.
    ActiveCount(usize),
    Turns(u64),
    Has(u16, bool),
    IsActive(u16, bool),
    Quantum(u16, u32),
    Deficit(u16, u64),
    Granted(u16, u64),
    ClassAt(usize, Option<u16>),
    PlaceOf(u16, Option<usize>),
}

// A list under test.
#[derive(Drop)]
struct Bench {
    active: Active,
}

impl Model for Bench {
    ghost use Rattle.std.specs.Prelude.{◌≡◌};
    ghost use Rattle.q_drr.specs.Schedule.{Schedule};

    ghost Value = { Schedule };

    ghost view = { λ b. b.active };

    ghost invariant = { λ b. b.active.max_len ≡ 1514 };
}

impl Bench {
    fn new(alloc: Global) -> Bench {
        Bench {
            active: Active::new(alloc, LONGEST),
        }
    }

    fn add(&mut self, class: u16, quantum: u32) -> Result<bool, Fail> {
        if self.active.has(class) || quantum < 1 {
            return Ok(false);
        }
        self.active.add(class, quantum)?;
        Ok(true)
    }

    fn remove(&mut self, class: u16) -> bool {
        let is_there = self.active.has(class);
        if is_there {
            self.active.remove(class);
        }
        is_there
    }

    fn wake(&mut self, class: u16) -> bool {
        let is_there = self.active.has(class);
        if is_there {
            self.active.wake(class);
        }
        is_there
    }

    fn sleep(&mut self, class: u16) -> bool {
        let is_there = self.active.has(class);
        if is_there {
            self.active.sleep(class);
        }
        is_there
    }

    fn set_quantum(&mut self, class: u16, quantum: u32) -> bool {
        let may_be = self.active.has(class) && quantum >= 1;
        if may_be {
            self.active.set_quantum(class, quantum);
        }
        may_be
    }

    fn turns(&mut self, len: u16, turn: Turn) -> bool {
        if len > LONGEST || self.active.active_count() == 0 {
            return false;
        }
        self.active.turn(len) == turn
    }

    // Whether a call answers as it has to.
    fn answers(&mut self, call: Call) -> Result<bool, Fail> {
        match call {
            Call::Add(class, quantum) => self.add(class, quantum),
            Call::Remove(class) => Ok(self.remove(class)),
            Call::Wake(class) => Ok(self.wake(class)),
            Call::Sleep(class) => Ok(self.sleep(class)),
            Call::SetQuantum(class, quantum) => Ok(self.set_quantum(class, quantum)),
            Call::Turn(len, turn) => Ok(self.turns(len, turn)),
            _ => Ok(self.shows(call)),
        }
    }

    // Whether a call that changes nothing answers as it has to.
    fn shows(&self, call: Call) -> bool {
        let active = &self.active;
        match call {
            Call::Front(class) => active.front() == class,
            Call::FrontPlace(place) => active.front_place() == place,
            Call::ActiveCount(count) => active.active_count() == count,
            Call::Turns(turns) => active.turns() == turns,
            Call::Has(class, is_there) => active.has(class) == is_there,
            Call::ClassAt(place, class) => active.class_at(place) == class,
            Call::PlaceOf(class, place) => active.place_of(class) == place,
            _ => self.shows_class(call),
        }
    }

    // Whether a call that asks for what is kept of a class answers as it has to.
    fn shows_class(&self, call: Call) -> bool {
        let active = &self.active;
        match call {
            Call::IsActive(class, is_active) => {
                active.has(class) && active.is_active(class) == is_active
            }
            Call::Quantum(class, quantum) => active.has(class) && active.quantum(class) == quantum,
            Call::Deficit(class, deficit) => active.has(class) && active.deficit(class) == deficit,
            Call::Granted(class, granted) => active.has(class) && active.granted(class) == granted,
            _ => false,
        }
    }

    // Fails at the first call that does not answer as it has to.
    fn play(&mut self, calls: &[Call]) -> Result<(), Fail> {
        let mut nth = 0u64;
        for call in calls {
            if !self.answers(*call)? {
                return Err(Fail::new(format_args!("call {nth} of the table")));
            }
            nth = nth.saturating_add(1);
        }
        Ok(())
    }
}

// Plays these calls on a list with no classes.
fn play(alloc: Global, calls: &[Call]) -> Result<(), Fail> {
    Bench::new(alloc).play(calls)
}

// A whole take that promises nothing, so that no test works out what is left after it.
fn take(active: &mut Active, heads: &[Option<u16>]) -> Option<Met>
    requires named { All (λ e. e.class < length heads.now) active.old.active }
    requires in_range { All (λ head. IfSome head (λ len. len ≤ active.old.max_len)) heads.now }
{
    take_by_turns(active, heads)
}

#[test]
fn two_classes_take_turns(rt: HostRuntime) -> Result<(), Fail> {
    play(
        rt.alloc(),
        &[
            Call::Add(1, 1000),
            Call::Add(2, 1000),
            Call::Wake(1),
            Call::Wake(2),
            Call::Wake(1),
            Call::Front(Some(1)),
            Call::Turn(1500, Turn::Granted),
            Call::Deficit(1, 2000),
            Call::Turn(500, Turn::Send),
            Call::Front(Some(2)),
            Call::Turn(500, Turn::Send),
            Call::Deficit(2, 0),
            Call::Turn(500, Turn::Granted),
            Call::Deficit(2, 1000),
            Call::Turn(1500, Turn::Send),
            Call::Deficit(1, 500),
            Call::Turns(5),
            Call::Granted(1, 1000),
            Call::Granted(2, 1000),
        ],
    )
}

#[test]
fn a_smaller_quantum_cuts_the_deficit(rt: HostRuntime) -> Result<(), Fail> {
    play(
        rt.alloc(),
        &[
            Call::Add(1, 1000),
            Call::Add(2, 1000),
            Call::Wake(1),
            Call::Wake(2),
            Call::Turn(1500, Turn::Granted),
            Call::SetQuantum(1, 100),
            Call::Deficit(1, 1613),
            Call::Quantum(1, 100),
            Call::Quantum(2, 1000),
        ],
    )
}

// What a take meets, and the turns that it took.
type Taken = (Option<Met>, u64);

// A take of a list on which the only class has a quantum of one byte.
fn take_of_one_byte(alloc: Global) -> Result<Taken, Fail> {
    meet_one_byte(&mut Active::new(alloc, 1514))
}

// The same on a list that is lent, as in the takes below: a list that ends where an `add` fails is dear to prove.
fn meet_one_byte(active: &mut Active) -> Result<Taken, Fail>
    requires { active.old ≡ no_classes 1514 }
{
    active.add(0, 1)?;
    active.wake(0);
    let met = take(active, &[Some(1514)]);
    Ok((met, active.turns()))
}

#[test]
fn a_quantum_of_one_byte_needs_a_grant_for_each_byte(rt: HostRuntime) -> Result<(), Fail> {
    let sent = Met {
        class: 0,
        head: Some(1514),
    };
    assert!(rt; take_of_one_byte(rt.alloc())? == (Some(sent), 1514));
    Ok(())
}

#[test]
fn classes_come_and_go(rt: HostRuntime) -> Result<(), Fail> {
    play(
        rt.alloc(),
        &[
            Call::Add(9, 300),
            Call::Add(0, 300),
            Call::Add(65535, 300),
            Call::Wake(9),
            Call::Wake(0),
            Call::Wake(65535),
            Call::Sleep(0),
            Call::IsActive(0, false),
            Call::Deficit(0, 0),
            Call::Remove(9),
            Call::Front(Some(65535)),
            Call::Wake(0),
            Call::Sleep(65535),
            Call::Front(Some(0)),
            Call::Sleep(0),
            Call::Front(None),
        ],
    )
}

// Adds the classes 1 and 2.
fn add_two(active: &mut Active) -> Result<(), Fail>
    requires { active.old ≡ no_classes 100 }
    ensures { OnOk result (active.new ≡ added 2 10 (added 1 10 (no_classes 100))) }
{
    active.add(1, 10)?;
    active.add(2, 10)?;
    Ok(())
}

// A take of a list on which both classes are inactive.
fn take_of_sleepers(alloc: Global) -> Result<Taken, Fail> {
    meet_none(&mut Active::new(alloc, 100))
}

fn meet_none(active: &mut Active) -> Result<Taken, Fail>
    requires { active.old ≡ no_classes 100 }
{
    add_two(active)?;
    let met = take(active, &[]);
    Ok((met, active.turns()))
}

// A take of a list on which class 1 is in front of class 2.
fn take_of_two(alloc: Global, heads: &[Option<u16>; 3]) -> Result<Taken, Fail>
    requires { All (λ head. IfSome head (λ len. len ≤ 100)) heads.now }
{
    meet_one_of_two(&mut Active::new(alloc, 100), heads)
}

fn meet_one_of_two(active: &mut Active, heads: &[Option<u16>; 3]) -> Result<Taken, Fail>
    requires empty { active.old ≡ no_classes 100 }
    requires in_range { All (λ head. IfSome head (λ len. len ≤ 100)) heads.now }
{
    add_two(active)?;
    active.wake(1);
    active.wake(2);
    let met = take(active, heads);
    Ok((met, active.turns()))
}

#[test]
fn a_whole_take_meets_the_class_that_needs_fewest_grants(rt: HostRuntime) -> Result<(), Fail> {
    assert!(rt; take_of_sleepers(rt.alloc())? == (None, 0));
    let second = Met {
        class: 2,
        head: Some(14),
    };
    let taken = take_of_two(rt.alloc(), &[None, Some(25), Some(14)])?;
    assert!(rt; taken == (Some(second), 4));
    Ok(())
}

#[test]
fn names_may_be_large(rt: HostRuntime) -> Result<(), Fail> {
    play(
        rt.alloc(),
        &[
            Call::Add(1, 300),
            Call::Add(0xffff, 400),
            Call::Add(0x8000, 500),
            Call::ClassAt(1, Some(0xffff)),
            Call::Wake(0x8000),
            Call::Wake(1),
            Call::FrontPlace(Some(2)),
            Call::Remove(0xffff),
            Call::PlaceOf(0xffff, None),
            Call::FrontPlace(Some(1)),
            Call::Has(0xffff, false),
            Call::Add(0xffff, 600),
            Call::ClassAt(0, Some(1)),
            Call::ClassAt(1, Some(0x8000)),
            Call::ClassAt(2, Some(0xffff)),
            Call::ClassAt(3, None),
            Call::PlaceOf(1, Some(0)),
            Call::PlaceOf(0x8000, Some(1)),
            Call::PlaceOf(0xffff, Some(2)),
            Call::Has(0x8000, true),
            Call::Deficit(0x8000, 500),
            Call::Has(0xffff, true),
            Call::Deficit(0xffff, 0),
        ],
    )
}

#[test]
fn the_others_keep_their_turns_when_a_class_is_removed(rt: HostRuntime) -> Result<(), Fail> {
    play(
        rt.alloc(),
        &[
            Call::Add(1, 100),
            Call::Add(2, 200),
            Call::Add(3, 300),
            Call::Add(4, 400),
            Call::Wake(3),
            Call::Wake(4),
            Call::Wake(1),
            Call::Wake(2),
            Call::Turn(301, Turn::Granted),
            Call::Remove(1),
            Call::ActiveCount(3),
            Call::Front(Some(4)),
            Call::Turn(401, Turn::Granted),
            Call::ActiveCount(3),
            Call::Front(Some(2)),
            Call::Turn(201, Turn::Granted),
            Call::Front(Some(3)),
            Call::Has(4, true),
            Call::Deficit(4, 800),
            Call::Has(2, true),
            Call::Deficit(2, 400),
        ],
    )
}

// Makes the class in a place active, where there is one.
fn wake_at(active: &mut Active, place: usize) -> Result<(), Fail> {
    if place >= active.count() {
        return Err(Fail::from("place"));
    }
    active.wake_at(place);
    Ok(())
}

fn sleep_at(active: &mut Active, place: usize) -> Result<(), Fail> {
    if place >= active.count() {
        return Err(Fail::from("place"));
    }
    active.sleep_at(place);
    Ok(())
}

// The class in front, with no `ensures`: together with its place it is dear to prove.
fn front(active: &Active) -> Option<u16> {
    active.front()
}

fn front_place(active: &Active) -> Option<usize> {
    active.front_place()
}

fn add_two_asleep(active: &mut Active) -> Result<(), Fail>
    requires { active.old ≡ no_classes 1514 }
{
    active.add(7, 100)?;
    active.add(5, 200)?;
    Ok(())
}

// The class in front, and its place.
type InFront = (Option<u16>, Option<usize>);

// Whether a list has two classes, and this one is in front.
fn has_in_front(active: &Active, (class, place): InFront) -> bool {
    front(active) == class && front_place(active) == place && active.count() == 2
}

fn set_at(active: &mut Active, place: usize, wakes: bool) -> Result<(), Fail> {
    if wakes {
        wake_at(active, place)
    } else {
        sleep_at(active, place)
    }
}

// Whether a class wakes or is put to sleep in each place, and what is in front after that.
fn expect_in_front(active: &mut Active, rows: &[(usize, bool, InFront)]) -> Result<(), Fail> {
    for (place, wakes, in_front) in rows {
        set_at(active, *place, *wakes)?;
        if !has_in_front(active, *in_front) {
            return Err(Fail::new(format_args!("place {place}, {wakes}")));
        }
    }
    Ok(())
}

fn wake_and_put_to_sleep(rt: &impl Abort, active: &mut Active) -> Result<(), Fail>
    requires { active.old ≡ no_classes 1514 }
{
    add_two_asleep(active)?;
    assert!(rt; has_in_front(active, (None, None)));
    expect_in_front(
        active,
        &[
            (1, true, (Some(5), Some(1))),
            (0, true, (Some(5), Some(1))),
            (1, false, (Some(7), Some(0))),
            (0, false, (None, None)),
        ],
    )
}

#[test]
fn a_class_is_woken_and_put_to_sleep_by_its_place(rt: HostRuntime) -> Result<(), Fail> {
    wake_and_put_to_sleep(&rt, &mut Active::new(rt.alloc(), LONGEST))
}
