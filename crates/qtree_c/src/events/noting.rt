//! Events are noted in the ring of the last events, where there is one.
//!
//! Most devices have none: so an event is made out of the way, as it is where the recorder keeps one.
ghost use Rattle.std.specs.Prelude.{◌≡◌, ◌+◌, ◌∷◌, [], All, map, replicate};
ghost use Rattle.q_device.specs.log.LastNoted.{all_noted, with_noted};
ghost use Rattle.q_model.specs.declared.event.Event.TheVariants as event;
ghost use Rattle.q_packet.specs.Stored.{descriptor, IsStored};
ghost use Rattle.qtree_c.specs.events.Noting.{noting};

use q_device::{Command, Device, Event, LastEvents};
use q_packet::StoredPacket;

/// Notes the arrival of a packet at the device, which has just accepted it.
#[inline(always)]
pub fn note_arrival(last: &mut Option<LastEvents>, device: &Device, packet: &StoredPacket)
    requires { IsStored packet.now }
    ensures { last.new ≡ noting (event.Arrive (descriptor packet.now) device.now.device.clock ∷ []) last.old }
{
    if let Some(last) = last {
        keep_arrival(last, device, packet);
    }
}

/// Notes a command, which the device has just done.
pub fn note_command(last: &mut Option<LastEvents>, device: &Device, command: &Command)
    ensures { last.new ≡ noting (event.Command command.now device.now.device.clock ∷ []) last.old }
{
    if let Some(last) = last {
        last.note(Event::Command(*command, device.clock()));
    }
}

#[cold]
#[inline(never)]
fn keep_arrival(last: &mut LastEvents, device: &Device, packet: &StoredPacket)
    requires { IsStored packet.now }
    ensures { last.new ≡ with_noted (event.Arrive (descriptor packet.now) device.now.device.clock) last.old }
{
    last.note(Event::Arrive(packet.packet(), device.clock()));
}

/// Notes the arrivals of these packets at the device, which has just accepted the last of them.
#[inline(always)]
pub fn note_arrivals(last: &mut Option<LastEvents>, device: &Device, packets: &[StoredPacket])
    requires { All IsStored packets.now }
    ensures { last.new ≡ noting (map (λ p. event.Arrive p device.now.device.clock) (map descriptor packets.now)) last.old }
{
    if let Some(last) = last {
        keep_arrivals(last, device, packets);
    }
}

/// Notes so many polls, of which the device has just done the last.
#[inline(always)]
pub fn note_polls(last: &mut Option<LastEvents>, device: &Device, polls: usize)
    ensures { last.new ≡ noting (replicate polls (event.Poll device.now.device.clock)) last.old }
{
    if let Some(last) = last {
        keep_polls(last, device, polls);
    }
}

/// Notes so many polls and one more, which the device has just done, and which gave no packet.
#[inline(always)]
pub fn note_polls_to_none(last: &mut Option<LastEvents>, device: &Device, given: usize)
    ensures { last.new ≡ noting (replicate (given + 1) (event.Poll device.now.device.clock)) last.old }
{
    if let Some(last) = last {
        keep_polls_to_none(last, device, given);
    }
}

#[cold]
#[inline(never)]
fn keep_arrivals(last: &mut LastEvents, device: &Device, packets: &[StoredPacket])
    requires { All IsStored packets.now }
    ensures { last.new ≡ all_noted (map (λ p. event.Arrive p device.now.device.clock) (map descriptor packets.now)) last.old }
{
    for i in 0..packets.len() {
        keep_arrival(last, device, &packets[i]);
    }
}

#[cold]
#[inline(never)]
fn keep_polls(last: &mut LastEvents, device: &Device, polls: usize)
    ensures { last.new ≡ all_noted (replicate polls (event.Poll device.now.device.clock)) last.old }
{
    for i in 0..polls {
        let _ = i;
        last.note(Event::Poll(device.clock()));
    }
}

#[cold]
#[inline(never)]
fn keep_polls_to_none(last: &mut LastEvents, device: &Device, given: usize)
    ensures { last.new ≡ all_noted (replicate (given + 1) (event.Poll device.now.device.clock)) last.old }
{
    keep_polls(last, device, given);
    last.note(Event::Poll(device.clock()));
}
