ghost use Rattle.std.specs.Prelude.{◌≡◌, ◌<◌, ◌≤◌, ◌+◌, ◌∷◌, [], false, true, not, is_none, IfOk, IfSome, None, OnErr, length, vec_len, vec_capacity};
ghost use Rattle.q_model.specs.declared.refusal.Refusal.TheVariants as refusals;
ghost use Rattle.q_model.specs.Step.{counts_at};
ghost use Rattle.q_script.specs.Script.{lines_of};
ghost use Rattle.q_setup.specs.Alike.{AreAlike, entries};
ghost use Rattle.q_setup.specs.Anew.{IsTrial, add_root, delete_root};
ghost use Rattle.q_setup.specs.Done.{AreAccepted, IsRefusedBy, after_commands};
ghost use Rattle.q_setup.specs.Effects.{additions, changes, deletions};
ghost use Rattle.q_setup.specs.SetUp.{HasAlready, IsSetUp, wanted};
ghost use Rattle.q_setup.specs.Tried.{tried};
ghost use Rattle.q_setup.specs.Trying.{seen};

use crate::carrying_out::carry_out;
use crate::counting::count;
use crate::effect::Effect;
use crate::planning::planned;
use crate::rebuilding::anew;
use crate::report::Report;
use crate::trial::{Trial, tried};
use q_device::Device;
use q_model::{Command, Refusal};
use q_packet::Moment;
use std::alloc::{AllocError, Global};

/// Makes the tree of a device what a file of tc lines says: what is there already with the same words is left, what differs is changed,
/// what is gone is deleted, and packets stay where they can. It can be called again while the device runs, with a file that has changed.
///
/// `text` has the lines that [`q_line::read_line`] reads, each of which ends with byte 10 or with the text; blank lines and comments are
/// skipped. All of them are tried first, at `now`, on a new device with the same settings. If one is not done there, nothing is done to the
/// device, and the report has the reason of each such line. Else commands are done to the device, each as an event at `now`; a time before the
/// device's clock counts as the clock. What the commands remove is lost, and waits for [`Device::reap`]. After the call the tree is what the
/// lines make of a new device, unless an allocation failed.
///
/// A qdisc stays if the file has one of the same kind with the same handle in the same place, and if all above it stay; one without a
/// handle keeps its number, unless a line names a number from 8001 (hexadecimal) up. An fq_codel with another number of flows, and a tbf whose
/// burst falls below both what it was and the mtu, are replaced. If the tree is what the lines say already, no command is done. Should the
/// planned commands not come to it, the tree is emptied and the lines are done as they stand; no file is known for which that happens.
///
/// # Errors
///
/// `AllocError` if an allocation fails before the first command. The device is then as it was. One that fails at a command is the refusal of
/// the report: what was done before it stays, and the same call does the rest.
pub fn set_up(
    alloc: Global,
    device: &mut Device,
    text: &[u8],
    now: Moment,
) -> Result<Report, AllocError>
    ensures number { IfOk result (λ r. r.lines ≡ length (lines_of text.now)) }
    ensures lines { IfOk result (λ r. r.undone.items ≡ (wanted device.old text.now now).undone) }
    ensures untouched { IfOk result (λ r. 0 < length r.undone.items → device.new ≡ device.old) }
    ensures nothing_done { IfOk result (λ r. 0 < length r.undone.items → r.commands.items ≡ []) }
    ensures commands { IfOk result (λ r. device.new ≡ record (after_commands now r.commands.items device.old) { memory = device.new.memory }) }
    ensures accepted { IfOk result (λ r. AreAccepted now r.commands.items device.old) }
    ensures again { IfOk result (λ r. HasAlready (wanted device.old text.now now) device.old → r.commands.items ≡ []) }
    ensures kept { IfOk result (λ r. HasAlready (wanted device.old text.now now) device.old → r.is_set_up ≡ true) }
    ensures done { IfOk result (λ r. r.undone.items ≡ [] → r.refusal ≡ None → r.is_set_up ≡ true) }
    ensures set_up { IfOk result (λ r. r.is_set_up ≡ true → IsSetUp (wanted device.old text.now now) r.refusal device.new) }
    ensures told { IfOk result (λ r. IsSetUp (wanted device.old text.now now) r.refusal device.new → r.is_set_up ≡ true) }
    ensures refused { IfOk result (λ r. IfSome r.refusal (λ refusal. IsRefusedBy now device.new refusal)) }
    ensures memory_alone { IfOk result (λ r. IfSome r.refusal (λ refusal. refusal ≡ refusals.Memory)) }
    ensures memory { OnErr result (device.new ≡ device.old) }
    ensures added { IfOk result (λ r. r.added ≡ additions r.commands.items) }
    ensures changed { IfOk result (λ r. r.changed ≡ changes r.commands.items) }
    ensures deleted { IfOk result (λ r. r.deleted ≡ deletions r.commands.items) }
{
    let trial = tried(alloc, device.settings(), text, counted_at(device, now))?;
    if !trial.undone.as_slice().is_empty() {
        return Ok(not_begun(alloc, trial));
    }
    made(alloc, device, trial, now)
}

// The time at which an event counts: the clock never goes back.
fn counted_at(device: &Device, now: Moment) -> Moment
    ensures { result ≡ counts_at now device.now.device }
{
    device.clock().max(now)
}

// The report where a line is not done.
fn not_begun(alloc: Global, trial: Trial) -> Report
    ensures lines { result.lines ≡ trial.lines }
    ensures undone { result.undone ≡ trial.undone }
    ensures commands { result.commands.items ≡ [] }
    ensures refusal { result.refusal ≡ None }
    ensures not_set_up { result.is_set_up ≡ false }
    ensures added { result.added ≡ 0 }
    ensures changed { result.changed ≡ 0 }
    ensures deleted { result.deleted ≡ 0 }
{
    Report {
        lines: trial.lines,
        undone: trial.undone,
        commands: Vec::new(alloc),
        refusal: None,
        is_set_up: false,
        added: 0,
        changed: 0,
        deleted: 0,
    }
}

// Does what is planned, where every line is done.
fn made(alloc: Global, device: &mut Device, trial: Trial, now: Moment) -> Result<Report, AllocError>
    requires trial { IsTrial device.old.settings (counts_at now device.old.device) (seen trial) }
    ensures lines { IfOk result (λ r. r.lines ≡ trial.lines) }
    ensures undone { IfOk result (λ r. r.undone ≡ trial.undone) }
    ensures commands { IfOk result (λ r. device.new ≡ record (after_commands now r.commands.items device.old) { memory = device.new.memory }) }
    ensures accepted { IfOk result (λ r. AreAccepted now r.commands.items device.old) }
    ensures again { IfOk result (λ r. AreAlike (not trial.names_chosen) (entries trial.device.device.tree) (entries device.old.device.tree) → r.commands.items ≡ []) }
    ensures kept { IfOk result (λ r. AreAlike (not trial.names_chosen) (entries trial.device.device.tree) (entries device.old.device.tree) → r.refusal ≡ None) }
    ensures alike { IfOk result (λ r. r.refusal ≡ None → AreAlike (not trial.names_chosen) (entries trial.device.device.tree) (entries device.new.device.tree)) }
    ensures refused { IfOk result (λ r. IfSome r.refusal (λ refusal. IsRefusedBy now device.new refusal)) }
    ensures memory_alone { IfOk result (λ r. IfSome r.refusal (λ refusal. refusal ≡ refusals.Memory)) }
    ensures told { IfOk result (λ r. r.is_set_up ≡ is_none r.refusal) }
    ensures memory { OnErr result (device.new ≡ device.old) }
    ensures added { IfOk result (λ r. r.added ≡ additions r.commands.items) }
    ensures changed { IfOk result (λ r. r.changed ≡ changes r.commands.items) }
    ensures deleted { IfOk result (λ r. r.deleted ≡ deletions r.commands.items) }
{
    let (mut commands, anew) = to_do(alloc, device, &trial)?;
    let refusal = carry_out(device, &trial, &anew, &mut commands, now);
    Ok(report(trial, commands, refusal))
}

// What is planned, in a list that has room for what makes the tree anew, and that.
fn to_do(
    alloc: Global,
    device: &Device,
    trial: &Trial,
) -> Result<(Vec<Command>, Vec<Command>), AllocError>
    ensures planned { IfOk result (λ r. AreAlike (not trial.now.names_chosen) (entries trial.now.device.device.tree) (entries device.now.device.tree) → r.0.items ≡ []) }
    ensures anew { IfOk result (λ r. r.1.items ≡ add_root ∷ delete_root ∷ trial.now.commands.items) }
    ensures room { IfOk result (λ r. vec_len r.0 + length r.1.items ≤ vec_capacity r.0) }
{
    let mut commands = plan(alloc, trial, device)?;
    let anew = anew(alloc, trial)?;
    commands.reserve(anew.len())?;
    Ok((commands, anew))
}

// The report of what was done, up to a refusal.
fn report(trial: Trial, commands: Vec<Command>, refusal: Option<Refusal>) -> Report
    ensures lines { result.lines ≡ trial.lines }
    ensures undone { result.undone ≡ trial.undone }
    ensures commands { result.commands ≡ commands }
    ensures refusal { result.refusal ≡ refusal }
    ensures set_up { result.is_set_up ≡ is_none refusal }
    ensures added { result.added ≡ additions commands.items }
    ensures changed { result.changed ≡ changes commands.items }
    ensures deleted { result.deleted ≡ deletions commands.items }
{
    Report {
        added: count(Effect::Adds, &commands),
        changed: count(Effect::Changes, &commands),
        deleted: count(Effect::Deletes, &commands),
        is_set_up: refusal.is_none(),
        lines: trial.lines,
        undone: trial.undone,
        commands,
        refusal,
    }
}

// The commands that make the tree of a trial of a device's; none where they are alike.
fn plan(alloc: Global, trial: &Trial, device: &Device) -> Result<Vec<Command>, AllocError>
    ensures { IfOk result (λ commands. AreAlike (not trial.now.names_chosen) (entries trial.now.device.device.tree) (entries device.now.device.tree) → commands.items ≡ []) }
{
    let mtu = device.settings().mtu;
    planned(
        alloc,
        !trial.names_chosen,
        mtu,
        trial.device.tree(),
        device.tree(),
    )
}
