//! A log of the last events, for a program that wants to know what happened just before.
ghost use Rattle.std.specs.Prelude.{◌≡◌, ◌≤◌, ◌-◌, ◌∷◌, ◌++◌, [], IfOk, IsOk, length, min, option_map, slice_get};
ghost use Rattle.std.specs.VecDeque.{deque_capacity};
ghost use Rattle.q_device.specs.log.LastNoted.{KeepsTheLast, last_of, none_noted, with_noted};

use q_model::Event;
use std::alloc::{AllocError, Global};
use std::collections::VecDeque;
use std::marker::Model;

/// The last events that a program has noted. The log has a fixed number of places: once all of them are taken, a new event takes the place of the
/// oldest.
///
/// A device records its *first* events, since a replay of those leads to the device. After a long time, what happened *last* says more. A program
/// that wants it has such a log beside the device, and notes each event that the device accepted, with the time that the device's clock shows after
/// the event:
///
/// ```
/// let mut last = LastEvents::new(alloc, 1024)?;
/// let polled = device.poll(now);
/// last.note(Event::Poll(device.clock()));
/// if device.command(command, now).is_ok() {
///     last.note(Event::Command(command, device.clock()));
/// }
/// for i in 0..last.len() {
///     print(last.get(i)?);
/// }
/// ```
///
/// The log cannot be replayed. It begins in the middle, with the event number [`LastEvents::noted`] less [`LastEvents::len`], counted from 0, and
/// it does not say what was queued then, nor what the tree was. A program knows the tree if it writes down what show prints of it, and reads the
/// commands in the log from there on.
///
/// In contracts a log is the record `LastNoted`. Only [`LastEvents::new`] allocates.
#[derive(Drop)]
pub struct LastEvents {
    places: u32,
    noted: u64,
    events: VecDeque<Event>,
}

impl Model for LastEvents {
    ghost use Rattle.q_device.specs.log.LastNoted.{LastNoted};

    ghost Value = { LastNoted };

    ghost use Rattle.q_device.specs.log.LastKept.{last_noted, IsKeptRing};

    ghost view = { last_noted };

    ghost invariant = { IsKeptRing };
}

impl LastEvents {
    /// Makes an empty log with this many places, and allocates all its memory.
    ///
    /// # Errors
    ///
    /// Returns `AllocError` if that allocation fails. This does not happen for a log without places.
    pub fn new(alloc: Global, places: u32) -> Result<LastEvents, AllocError>
        ensures made { IfOk result (λ last. last ≡ none_noted places) }
        ensures succeeds { places ≡ 0 → IsOk result }
    {
        let events = VecDeque::with_capacity(alloc, places as usize)?;
        Ok(LastEvents {
            places,
            noted: 0,
            events,
        })
    }

    /// Notes an event as the newest. If all places are taken, it takes the place of the oldest. If there are no places, the event is only counted.
    /// Allocates nothing.
    pub fn note(&mut self, event: Event)
        ensures { self.new ≡ with_noted event self.old }
    {
        self.noted = self.noted.saturating_add(1);
        push_last(&mut self.events, self.places as usize, event);
    }

    /// Returns the event with this index: 0 is the oldest that is still in the log. Returns `None` if the index is past the newest event.
    pub fn get(&self, i: usize) -> Option<&Event>
        ensures { option_map (λ event. event.now) result ≡ slice_get self.now.events i }
    {
        self.events.get(i)
    }

    /// Returns how many events are in the log: all that were noted, but at most as many as there are places.
    pub fn len(&self) -> usize
        ensures events { result ≡ length self.now.events }
        ensures noted { result ≡ min self.now.places self.now.noted }
    {
        self.events.len()
    }

    /// Returns for how many events the log has places.
    pub fn places(&self) -> u32
        ensures { result ≡ self.now.places }
    {
        self.places
    }

    /// Returns how many events were noted in all. The number stays at 2^64 - 1 once it is that.
    pub fn noted(&self) -> u64
        ensures { result ≡ self.now.noted }
    {
        self.noted
    }
}

// Pushes an event, of which it reads nothing, behind the others, of which the oldest makes way where all of so many places are taken.
fn push_last<E: Copy>(events: &mut VecDeque<E>, places: usize, event: E)
    requires within { length events.old.items ≤ places }
    requires capacity { places ≤ deque_capacity events.old }
    ensures items { events.new.items ≡ last_of places (events.old.items ++ event ∷ []) }
    ensures capacity { deque_capacity events.new ≡ deque_capacity events.old }
{
    if places == 0 {
        return;
    }
    make_way(events, places);
    events.push_back_reserved(event);
}

// Frees one of so many places: the oldest event leaves where all are taken.
fn make_way<E: Copy>(events: &mut VecDeque<E>, places: usize)
    requires some { 1 ≤ places }
    requires within { length events.old.items ≤ places }
    ensures items { events.new.items ≡ last_of (places - 1) events.old.items }
    ensures capacity { deque_capacity events.new ≡ deque_capacity events.old }
{
    if events.len() == places {
        let _ = events.pop_front();
    }
}

/// If any list of events is noted in a new log, the log has the last of them, as many as it has places, and has counted all. The function does
/// nothing.
pub fn last_events_are_kept()
    ensures { KeepsTheLast }
{}
