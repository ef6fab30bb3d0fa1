//! Plays a list of events on a new device.
ghost use Rattle.std.specs.Prelude.{◌≡◌, ◌++◌, [], IfOk, IsOk, OnOk, OnErr, length};
ghost use Rattle.q_model.specs.Replay.{replay};
ghost use Rattle.q_model.specs.Step.{step};
ghost use Rattle.q_model.specs.Tally.{history, totals};
ghost use Rattle.q_model.specs.declared.event.Event.TheVariants as event;
ghost use Rattle.q_model.specs.declared.reply.Reply.TheVariants as reply;
ghost use Rattle.q_model.specs.declared.refusal.Refusal.TheVariants as refusals;
ghost use Rattle.q_tree.specs.commands.Commanding.{MayTakeMemory};
ghost use Rattle.q_device.specs.device.DeviceSeen.{HasRoomFor, IsRefusal};

use crate::device::Device;
use q_model::{Command, Event, Fate, Refusal, Reply, Settings};
use q_packet::{Moment, Packet};
use std::alloc::{AllocError, Global};

/// The replies to a list of events, one for each.
pub type Replies = Vec<Reply>;

/// Plays a list of events on a new device with these settings, and returns its replies, one for each event.
///
/// The replies are those of the model's replay, both with totals and with whole histories. The reply to a refused command is its refusal, and the
/// play goes on.
///
/// # Errors
///
/// Returns `AllocError` if an allocation fails: for the replies, the recorder, a packet and its loss, or a command. The play ends there, since the
/// model has no allocation failures. This does not happen if there are no events and the recorder keeps none.
pub fn play(alloc: Global, settings: Settings, events: &[Event]) -> Result<Replies, AllocError>
    ensures replies { IfOk result (λ replies. replies.items ≡ (replay totals settings events.now).replies) }
    ensures histories { IfOk result (λ replies. replies.items ≡ (replay history settings events.now).replies) }
    ensures each { IfOk result (λ replies. length replies.items ≡ length events.now) }
    ensures succeeds { settings.recorder ≡ 0 → events.now ≡ [] → IsOk result }
{
    let mut replies = Vec::with_capacity(alloc, events.len())?;
    let mut device = Device::open(alloc, settings)?;
    for event in events {
        let reply = match *event {
            Event::Arrive(packet, now) => Reply::Fate(arrive(&mut device, packet, now)?),
            Event::Poll(now) => Reply::Polled(device.poll(now)),
            Event::Command(command, now) => Reply::Done(command_done(&mut device, command, now)?),
        };
        replies.push_reserved(reply);
    }
    Ok(replies)
}

// What an arrival is answered. If an allocation fails, it was no event, and nothing but places has changed.
fn arrive(device: &mut Device, packet: Packet, now: Moment) -> Result<Fate, AllocError>
    ensures reply { IfOk result (λ fate. reply.Fate fate ≡ (step totals device.old.device (event.Arrive packet now)).reply) }
    ensures device { OnOk result (device.new.device ≡ (step totals device.old.device (event.Arrive packet now)).device) }
    ensures losses { OnOk result (device.new.waiting ≡ device.old.waiting ++ (step totals device.old.device (event.Arrive packet now)).losses) }
    ensures same { OnErr result (device.new ≡ record device.old { memory = device.new.memory }) }
    ensures refused { OnErr result (HasRoomFor packet device.old → ⊥) }
{
    device.arrive(packet, now).map_err(|(_, refused)| refused)
}

// Whether a command is done, or the model's refusal. Where the model does it and an allocation fails, it was no
// event, and nothing has changed.
fn command_done(
    device: &mut Device,
    command: Command,
    now: Moment,
) -> Result<Result<(), Refusal>, AllocError>
    ensures reply { IfOk result (λ done. reply.Done done ≡ (step totals device.old.device (event.Command command now)).reply) }
    ensures device { OnOk result (device.new.device ≡ (step totals device.old.device (event.Command command now)).device) }
    ensures losses { OnOk result (device.new.waiting ≡ device.old.waiting ++ (step totals device.old.device (event.Command command now)).losses) }
    ensures same { OnErr result (device.new ≡ device.old) }
    ensures refused { OnErr result (IsRefusal (MayTakeMemory command) (step totals device.old.device (event.Command command now)).reply refusals.Memory) }
{
    match device.command(command, now) {
        Err(Refusal::Memory) => Err(AllocError),
        done => Ok(done),
    }
}
