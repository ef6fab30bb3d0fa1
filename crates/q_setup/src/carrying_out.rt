//! What is planned is done, and where that did not come to the wanted tree, it is built anew.
ghost use Rattle.std.specs.Prelude.{◌≡◌, ◌≤◌, ◌+◌, ◌∷◌, [], not, length, IfSome, Some, None, true, false, vec_len, vec_capacity};
ghost use Rattle.q_model.specs.declared.refusal.Refusal.TheVariants as refusals;
ghost use Rattle.q_model.specs.Step.{counts_at};
ghost use Rattle.q_setup.specs.Alike.{AreAlike, entries};
ghost use Rattle.q_setup.specs.Anew.{IsTrial, add_root, delete_root};
ghost use Rattle.q_setup.specs.Done.{AreAccepted, IsRefusedBy, after_commands};
ghost use Rattle.q_setup.specs.Trying.{seen};

use crate::alike::are_alike;
use crate::doing::do_commands;
use crate::rebuilding::rebuild;
use crate::trial::Trial;
use q_device::Device;
use q_model::{Command, Refusal};
use q_packet::Moment;

/// Does the planned commands, and leaves in their list those that were done. Where the tree is not what the lines say after them, it is
/// emptied and the lines are done as they stand. Returns the refusal for want of memory, where there is one.
pub(crate) fn carry_out(
    device: &mut Device,
    trial: &Trial,
    anew: &[Command],
    commands: &mut Vec<Command>,
    now: Moment,
) -> Option<Refusal>
    requires trial { IsTrial device.old.settings (counts_at now device.old.device) (seen trial.now) }
    requires anew { anew.now ≡ add_root ∷ delete_root ∷ trial.now.commands.items }
    requires room { vec_len commands.old + length anew.now ≤ vec_capacity commands.old }
    ensures commands { device.new ≡ record (after_commands now commands.new.items device.old) { memory = device.new.memory } }
    ensures accepted { AreAccepted now commands.new.items device.old }
    ensures refused { IfSome result (λ refusal. IsRefusedBy now device.new refusal) }
    ensures memory { IfSome result (λ refusal. refusal ≡ refusals.Memory) }
    ensures alike { result ≡ None → AreAlike (not trial.now.names_chosen) (entries trial.now.device.device.tree) (entries device.new.device.tree) }
    ensures nothing { AreAlike (not trial.now.names_chosen) (entries trial.now.device.device.tree) (entries device.old.device.tree) → commands.old.items ≡ [] → commands.new.items ≡ [] }
    ensures done { AreAlike (not trial.now.names_chosen) (entries trial.now.device.device.tree) (entries device.old.device.tree) → commands.old.items ≡ [] → result ≡ None }
{
    let (done, refusal) = do_commands(device, commands, now);
    commands.truncate(done);
    if is_memory(refusal) {
        return refusal;
    }
    if is_made(trial, device) {
        return None;
    }
    rebuild(device, trial, anew, commands, now)
}

fn is_memory(refusal: Option<Refusal>) -> bool
    ensures yes { result ≡ true → refusal ≡ Some refusals.Memory }
    ensures none { refusal ≡ None → result ≡ false }
{
    match refusal {
        Some(Refusal::Memory) => true,
        _ => false,
    }
}

// Whether the device's tree is like that of the trial.
fn is_made(trial: &Trial, device: &Device) -> bool
    ensures alike { result ≡ true → AreAlike (not trial.now.names_chosen) (entries trial.now.device.device.tree) (entries device.now.device.tree) }
    ensures told { AreAlike (not trial.now.names_chosen) (entries trial.now.device.device.tree) (entries device.now.device.tree) → result ≡ true }
{
    let keep = !trial.names_chosen;
    are_alike(keep, trial.device.tree(), device.tree())
}
