//! The recorder: the first events are kept.
//!
//! An event is large, and most are not kept: so it is made out of the way, where it is kept.
ghost use Rattle.std.specs.Prelude.{◌≡◌, ◌<◌, ◌≤◌, ◌∷◌, ◌++◌, [], length, nat_lt, vec_capacity};
ghost use Rattle.q_model.specs.declared.event.Event.TheVariants as event;
ghost use Rattle.q_device.specs.device.DeviceSeen.{with_recorded};

use q_model::{Command, Event, Settings};
use q_packet::{KeptPacket, Moment};

/// Keeps the arrival of a packet where there is room.
#[inline(always)]
pub(crate) fn record_arrival(
    recorded: &mut Vec<Event>,
    settings: &Settings,
    packet: &KeptPacket,
    at: Moment,
)
    requires { settings.now.recorder ≤ vec_capacity recorded.old }
    ensures items { recorded.new.items ≡ with_recorded settings.now.recorder (event.Arrive packet.now at) recorded.old.items }
    ensures capacity { vec_capacity recorded.new ≡ vec_capacity recorded.old }
{
    if has_room(recorded, settings) {
        keep_arrival(recorded, packet, at);
    }
}

/// Keeps a poll where there is room. There is none where packets may still arrive with nothing asked.
#[inline(always)]
pub(crate) fn record_poll(recorded: &mut Vec<Event>, settings: &Settings, spare: u64, at: Moment)
    requires capacity { settings.now.recorder ≤ vec_capacity recorded.old }
    requires full { 1 ≤ spare → settings.now.recorder ≤ length recorded.old.items }
    ensures items { recorded.new.items ≡ with_recorded settings.now.recorder (event.Poll at) recorded.old.items }
    ensures capacity { vec_capacity recorded.new ≡ vec_capacity recorded.old }
{
    if spare == 0 {
        keep_poll(recorded, settings, at);
    }
}

/// Keeps a command where there is room.
pub(crate) fn record_command(
    recorded: &mut Vec<Event>,
    settings: &Settings,
    command: &Command,
    at: Moment,
)
    requires { settings.now.recorder ≤ vec_capacity recorded.old }
    ensures items { recorded.new.items ≡ with_recorded settings.now.recorder (event.Command command.now at) recorded.old.items }
    ensures capacity { vec_capacity recorded.new ≡ vec_capacity recorded.old }
{
    if has_room(recorded, settings) {
        keep_command(recorded, command, at);
    }
}

/// Whether there is room to keep an event.
#[inline(always)]
pub(crate) fn has_room(recorded: &Vec<Event>, settings: &Settings) -> bool
    ensures { result ≡ nat_lt (length recorded.now.items) settings.now.recorder }
{
    recorded.len() < settings.recorder as usize
}

#[cold]
#[inline(never)]
fn keep_arrival(recorded: &mut Vec<Event>, packet: &KeptPacket, at: Moment)
    requires { length recorded.old.items < vec_capacity recorded.old }
    ensures items { recorded.new.items ≡ recorded.old.items ++ event.Arrive packet.now at ∷ [] }
    ensures capacity { vec_capacity recorded.new ≡ vec_capacity recorded.old }
{
    keep(recorded, Event::Arrive(packet.packet(), at));
}

// Where there is room.
#[cold]
#[inline(never)]
fn keep_poll(recorded: &mut Vec<Event>, settings: &Settings, at: Moment)
    requires { settings.now.recorder ≤ vec_capacity recorded.old }
    ensures items { recorded.new.items ≡ with_recorded settings.now.recorder (event.Poll at) recorded.old.items }
    ensures capacity { vec_capacity recorded.new ≡ vec_capacity recorded.old }
{
    if has_room(recorded, settings) {
        keep(recorded, Event::Poll(at));
    }
}

#[cold]
#[inline(never)]
fn keep_command(recorded: &mut Vec<Event>, command: &Command, at: Moment)
    requires { length recorded.old.items < vec_capacity recorded.old }
    ensures items { recorded.new.items ≡ recorded.old.items ++ event.Command command.now at ∷ [] }
    ensures capacity { vec_capacity recorded.new ≡ vec_capacity recorded.old }
{
    keep(recorded, Event::Command(*command, at));
}

// Keeps an event, of which it reads nothing.
fn keep<E: Copy>(recorded: &mut Vec<E>, event: E)
    requires { length recorded.old.items < vec_capacity recorded.old }
    ensures items { recorded.new.items ≡ recorded.old.items ++ event ∷ [] }
    ensures capacity { vec_capacity recorded.new ≡ vec_capacity recorded.old }
{
    recorded.push_reserved(event);
}
