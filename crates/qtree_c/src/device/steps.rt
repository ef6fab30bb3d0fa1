//! The events of a device, in the words of this crate's contracts. Each is noted in the ring of the last events, where there is one.
ghost use Rattle.std.specs.Prelude.{◌≡◌, IfErr, IfOk, IsOk, Ok, OnOk, OnErr, unwrap_or};
ghost use Rattle.q_device.specs.device.DeviceSeen.{HasRoomFor, IsRefusal, IsRefusedAt};
ghost use Rattle.q_device.specs.device.Giving.{polled_in};
ghost use Rattle.q_device.specs.DeviceLaws.{HasItsMemory};
ghost use Rattle.q_device.specs.log.LastNoted.{with_noted};
ghost use Rattle.q_model.specs.declared.event.Event.TheVariants as event;
ghost use Rattle.q_model.specs.declared.reply.Reply.TheVariants as reply;
ghost use Rattle.q_device.specs.device.Room.{KeepsPlaces, StaysButForPlaces};
ghost use Rattle.q_tree.specs.commands.Commanding.{MayTakeMemory};
ghost use Rattle.q_device.specs.device.Polls.{after_poll, given_at};
ghost use Rattle.q_device.specs.Events.{after_event, reply_to, with_memory};
ghost use Rattle.q_packet.specs.Descriptor.{Descriptor};
ghost use Rattle.q_packet.specs.Stored.{descriptor, IsStored};
ghost use Rattle.qtree_c.specs.abi.Structs.{told_or};
ghost use Rattle.q_model.specs.Step.{counts_at};
ghost use Rattle.qtree_c.specs.events.Noting.{noting, one_event};

use crate::device::opened::Opened;
use crate::device::polled_into::PolledInto;
use crate::events::noting::{note_arrival, note_command};
use q_device::laws::device_has_its_memory;
use q_device::{Command, Device, Event, Fate, Given, LastEvents, Refusal};
use q_packet::{Moment, StoredPacket};
use std::alloc::AllocError;

/// A stored packet, each field of which is within its range, arrives, as at `Device::arrive_stored`.
///
/// # Errors
///
/// `AllocError` if an allocation fails. Nothing has changed then but for places: what there was room for there is room for still.
#[inline(always)]
pub fn arrive(opened: &mut Opened, packet: &StoredPacket, now: Moment) -> Result<Fate, AllocError>
    requires { IsStored packet.now }
    ensures event { OnOk result (opened.new.device ≡ with_memory opened.new.device.memory (after_event (event.Arrive (descriptor packet.now) now) opened.old.device)) }
    ensures fate { IfOk result (λ fate. reply.Fate fate ≡ reply_to (event.Arrive (descriptor packet.now) now) opened.old.device) }
    ensures stays { OnErr result (StaysButForPlaces opened.old.device opened.new.device) }
    ensures places { KeepsPlaces opened.old.device opened.new.device }
    ensures memory { HasItsMemory opened.old.device }
    ensures succeeds { HasRoomFor (descriptor packet.now) opened.old.device → IsOk result }
    ensures noted { OnOk result (opened.new.last ≡ noting (one_event (event.Arrive (descriptor packet.now) now) opened.old.device) opened.old.last) }
    ensures unnoted { OnErr result (opened.new.last ≡ opened.old.last) }
    ensures clock { OnOk result (opened.new.device.device.clock ≡ counts_at now opened.old.device.device) }
{
    device_has_its_memory(&opened.device);
    match opened.device.arrive_stored(packet, now) {
        Ok(fate) => {
            note_arrival(&mut opened.last, &opened.device, packet);
            Ok(fate)
        }
        Err(_) => Err(AllocError),
    }
}

/// The device is polled, and what is said of the packet that it gives is written into this place.
#[inline(always)]
pub fn poll<T: PolledInto>(opened: &mut Opened, now: Moment, place: &mut T) -> Given
    ensures polled { opened.new.device ≡ after_poll now opened.old.device }
    ensures packet { place.new ≡ told_or T.told place.old (given_at now opened.old.device) }
    ensures reply { (other : Descriptor) → reply.Polled (polled_in (unwrap_or (given_at now opened.old.device) other) result) ≡ reply_to (event.Poll now) opened.old.device }
    ensures noted { opened.new.last ≡ noting (one_event (event.Poll now) opened.old.device) opened.old.last }
    ensures clock { opened.new.device.device.clock ≡ counts_at now opened.old.device.device }
{
    match &mut opened.last {
        None => T::poll(&mut opened.device, now, place),
        Some(last) => poll_noted(&mut opened.device, last, now, place),
    }
}

// Polls a device, and notes it. Out of the way, since most devices have no ring.
#[cold]
#[inline(never)]
fn poll_noted<T: PolledInto>(
    device: &mut Device,
    last: &mut LastEvents,
    now: Moment,
    place: &mut T,
) -> Given
    ensures polled { device.new ≡ after_poll now device.old }
    ensures packet { place.new ≡ told_or T.told place.old (given_at now device.old) }
    ensures reply { (other : Descriptor) → reply.Polled (polled_in (unwrap_or (given_at now device.old) other) result) ≡ reply_to (event.Poll now) device.old }
    ensures noted { last.new ≡ with_noted (event.Poll device.new.device.clock) last.old }
    ensures clock { device.new.device.clock ≡ counts_at now device.old.device }
{
    let given = T::poll(device, now, place);
    last.note(Event::Poll(device.clock()));
    given
}

/// A command is done, as at `Device::command`.
///
/// # Errors
///
/// The refusal. Nothing has changed then.
pub fn command(opened: &mut Opened, command: Command, now: Moment) -> Result<(), Refusal>
    ensures event { OnOk result (opened.new.device ≡ with_memory opened.new.device.memory (after_event (event.Command command now) opened.old.device)) }
    ensures reply { OnOk result (reply.Done (Ok (record {})) ≡ reply_to (event.Command command now) opened.old.device) }
    ensures refused { IfErr result (IsRefusal (MayTakeMemory command) (reply_to (event.Command command now) opened.old.device)) }
    ensures memory { IfErr result (IsRefusedAt command now opened.old.device) }
    ensures same { OnErr result (opened.new.device ≡ opened.old.device) }
    ensures noted { OnOk result (opened.new.last ≡ noting (one_event (event.Command command now) opened.old.device) opened.old.last) }
    ensures unnoted { OnErr result (opened.new.last ≡ opened.old.last) }
{
    match opened.device.command(command, now) {
        Ok(()) => {
            note_command(&mut opened.last, &opened.device, &command);
            Ok(())
        }
        Err(refusal) => Err(refusal),
    }
}
