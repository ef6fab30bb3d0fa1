//! Commands are done in turn, up to the first that is refused.
ghost use Rattle.std.specs.Prelude.{◌≡◌, ◌≤◌, IfSome, IsSome, None, length, slice_get, take};
ghost use Rattle.q_model.specs.Step.{step};
ghost use Rattle.q_model.specs.Tally.{totals};
ghost use Rattle.q_model.specs.declared.event.Event.TheVariants as event;
ghost use Rattle.q_tree.specs.commands.Commanding.{MayTakeMemory};
ghost use Rattle.q_device.specs.device.DeviceSeen.{IsRefusal, with_event};
ghost use Rattle.q_setup.specs.Done.{AreAccepted, IsAccepted, IsRefusedAs, after_commands};

use q_device::Device;
use q_model::{Command, Refusal};
use q_packet::Moment;

/// Does these commands in turn. Returns how many were done, and why the next was refused.
pub(crate) fn do_commands(
    device: &mut Device,
    commands: &[Command],
    now: Moment,
) -> (usize, Option<Refusal>)
    ensures number { result.0 ≤ length commands.now }
    ensures after { device.new ≡ record (after_commands now (take result.0 commands.now) device.old) { memory = device.new.memory } }
    ensures accepted { AreAccepted now (take result.0 commands.now) device.old }
    ensures refused { IfSome result.1 (IsRefusedAs now device.new (slice_get commands.now result.0)) }
    ensures all { result.1 ≡ None → result.0 ≡ length commands.now }
{
    let mut done = 0;
    for command in commands {
        if let Some(refusal) = refusal_of(device, *command, now) {
            return (done, Some(refusal));
        }
        done += 1;
    }
    (done, None)
}

// Does a command, or tells why it is refused.
fn refusal_of(device: &mut Device, command: Command, now: Moment) -> Option<Refusal>
    ensures done { result ≡ None → device.new ≡ record (with_event (event.Command command now) device.old) { memory = device.new.memory } }
    ensures accepted { result ≡ None → IsAccepted now command device.old }
    ensures same { IsSome result → device.new ≡ device.old }
    ensures refused { IfSome result (λ refusal. IsRefusal (MayTakeMemory command) (step totals device.old.device (event.Command command now)).reply refusal) }
{
    match device.command(command, now) {
        Ok(()) => return None,
        Err(refusal) => return Some(refusal),
    }
}
