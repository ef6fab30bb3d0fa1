//! A tree that planned commands did not make what the lines say is emptied, and the lines are done, as on a new device.
ghost use Rattle.std.specs.Prelude.{◌≡◌, ◌≤◌, ◌+◌, ◌∷◌, [], ◌++◌, not, drop, if◌then◌else◌, length, IfOk, IfSome, None, vec_len, vec_capacity};
ghost use Rattle.q_model.specs.declared.refusal.Refusal.TheVariants as refusals;
ghost use Rattle.q_model.specs.Step.{counts_at};
ghost use Rattle.q_setup.specs.Alike.{AreAlike, entries};
ghost use Rattle.q_setup.specs.Anew.{IsTrial, add_root, delete_root, has_explicit_root};
ghost use Rattle.q_setup.specs.Done.{GoesOn, IsRefusedBy};
ghost use Rattle.q_setup.specs.Trying.{seen};

use crate::adding::add;
use crate::doing::do_commands;
use crate::trial::Trial;
use q_device::Device;
use q_device::laws::device_is_replayed;
use q_model::{Command, Kind, Place, Refusal};
use q_packet::Moment;
use std::alloc::{AllocError, Global};

/// What empties a tree, whatever its root is, and then the commands of the lines.
pub(crate) fn anew(alloc: Global, trial: &Trial) -> Result<Vec<Command>, AllocError>
    ensures { IfOk result (λ commands. commands.items ≡ add_root ∷ delete_root ∷ trial.now.commands.items) }
{
    let mut commands = Vec::new(alloc);
    add(
        &mut commands,
        Command::QdiscAdd {
            place: Place::Root,
            handle: None,
            kind: Kind::Pfifo { limit: None },
        },
    )?;
    add(
        &mut commands,
        Command::QdiscDel {
            place: Some(Place::Root),
            handle: None,
        },
    )?;
    commands.extend_from_slice(&trial.commands)?;
    Ok(commands)
}

/// Empties the tree and does the lines, and adds what was done to the commands that were done before. No command is refused but for
/// want of memory, which is returned.
pub(crate) fn rebuild(
    device: &mut Device,
    trial: &Trial,
    anew: &[Command],
    commands: &mut Vec<Command>,
    now: Moment,
) -> Option<Refusal>
    requires trial { IsTrial device.old.settings (counts_at now device.old.device) (seen trial.now) }
    requires anew { anew.now ≡ add_root ∷ delete_root ∷ trial.now.commands.items }
    requires room { vec_len commands.old + length anew.now ≤ vec_capacity commands.old }
    ensures commands { GoesOn now commands.old.items commands.new.items device.old device.new }
    ensures refused { IfSome result (λ refusal. IsRefusedBy now device.new refusal) }
    ensures memory { IfSome result (λ refusal. refusal ≡ refusals.Memory) }
    ensures alike { result ≡ None → AreAlike (not trial.now.names_chosen) (entries trial.now.device.device.tree) (entries device.new.device.tree) }
{
    device_is_replayed(device);
    let anew = to_do(device, anew);
    let (done, refusal) = do_commands(device, anew, now);
    note_all(commands, &anew[..done]);
    refusal
}

// An explicit root can be deleted at once; an implicit one is replaced first, so that it is empty when it comes back.
fn to_do<'a>(device: &Device, anew: &'a [Command]) -> &'a [Command]
    requires { 1 ≤ length anew.now }
    ensures { result.now ≡ (if has_explicit_root device.now.device then drop 1 anew.now else anew.now) }
{
    if has_explicit_root(device) {
        return &anew[1..];
    }
    anew
}

fn has_explicit_root(device: &Device) -> bool
    ensures { result ≡ has_explicit_root device.now.device }
{
    match device.tree().nodes().next() {
        Some(root) => root.view().handle.is_some(),
        None => false,
    }
}

// Adds commands for which there is room.
fn note_all(commands: &mut Vec<Command>, more: &[Command])
    requires { vec_len commands.old + length more.now ≤ vec_capacity commands.old }
    ensures { commands.new.items ≡ commands.old.items ++ more.now }
{
    let _ = commands.extend_from_slice(more);
}
