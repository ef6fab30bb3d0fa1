ghost use Rattle.std.specs.Prelude.{◌≡◌, ◌≤◌, ◌<◌, [], length, IfErr, IfOk, IfSome, OnErr, OnOk, Err};
ghost use Rattle.std.specs.Io.KnownBytes.{Keeps};
ghost use Rattle.q_drive.specs.Reported.{IsDriven, IsDrivenOf, IsEnded, IsPartlyDriven, IsPartlyEnded, outcome_with};
ghost use Rattle.q_drive.specs.Texts.{ending_text};
ghost use Rattle.q_model.specs.Tally.{no_totals};
ghost use Rattle.q_script.specs.Ended.{Ended};
ghost use Rattle.q_script.specs.Reads.{no_reads};
ghost use Rattle.q_show.specs.Writes.{no_writes, MayWrite, WriteFailed};
ghost use Rattle.q_show.specs.Written.{HasWrittenWhole};

use crate::driving::{Driven, drive_device};
use crate::ending::write_ending;
use crate::set_up::SetUp;
use crate::settings::DriveSettings;
use q_device::Device;
use q_script::{Outcome, Output, RunFault, Source};
use q_session::Notes;
use q_show::{Target, WriteFault};
use std::alloc::Global;
use std::io::{ErrorKind, Read, Write};
use std::sync::Wait;
use std::thread::Threads;

/// Drives a device as [`run_drive`] does, from a source that was not read yet to a target that was not written yet. How their
/// reads and writes ended decides the result, as for `run_between` of `q_script`.
pub fn run_drive_between<H: Threads + Wait + Sync, R: Read, W: Write>(
    rt: &H,
    alloc: Global,
    source: &mut Source<'_, R>,
    target: &mut Target<'_, W>,
    settings: DriveSettings,
) -> Result<Outcome, RunFault>
    requires unread { source.old.reads ≡ no_reads }
    requires unwritten { target.old.writes ≡ no_writes }
    ensures same_reader { source.new.reader.ghost_name ≡ source.old.reader.ghost_name }
    ensures same_writer { target.new.writer.ghost_name ≡ target.old.writer.ghost_name }
    ensures report { IfOk result (λ outcome. IfSome (R.remaining source.old.reader.now) (λ script.
        IsDriven settings script outcome (W.contents target.old.writer.now) (W.contents target.new.writer.now))) }
    ensures short { OnOk result (IfSome (R.remaining source.old.reader.now) (λ script. length script ≤ 16777216)) }
    ensures too_long_only { result ≡ Err RunFault.TooLong → IfSome (R.remaining source.old.reader.now) (λ script. 16777216 < length script) }
    ensures partly { (kind : ErrorKind) → result ≡ Err (RunFault.Write kind) → IfSome (R.remaining source.old.reader.now) (λ script.
        IsPartlyDriven settings script (W.contents target.old.writer.now) (W.contents target.new.writer.now)) }

    // What the reads and writes came to, and what was written where no report was.
    ensures ended { Ended result source.new.reads target.new.writes }
    ensures read_unwritten { (kind : ErrorKind) → result ≡ Err (RunFault.Read kind) → target.new ≡ target.old }
    ensures too_long_unwritten { result ≡ Err RunFault.TooLong → target.new ≡ target.old }
    ensures memory_unwritten { result ≡ Err RunFault.Memory → target.new ≡ target.old }
{
    let mut notes = Notes::counting(alloc);
    run_drive_noting(rt, alloc, source, target, settings, &mut notes)
}

/// The same. If it returns an outcome, the notes that were handed over are then those of its lines, and say how many were not done.
pub fn run_drive_noting<H: Threads + Wait + Sync, R: Read, W: Write>(
    rt: &H,
    alloc: Global,
    source: &mut Source<'_, R>,
    target: &mut Target<'_, W>,
    settings: DriveSettings,
    notes: &mut Notes,
) -> Result<Outcome, RunFault>
    requires unread { source.old.reads ≡ no_reads }
    requires unwritten { target.old.writes ≡ no_writes }
    ensures same_reader { source.new.reader.ghost_name ≡ source.old.reader.ghost_name }
    ensures same_writer { target.new.writer.ghost_name ≡ target.old.writer.ghost_name }
    ensures report { IfOk result (λ outcome. IfSome (R.remaining source.old.reader.now) (λ script.
        IsDrivenOf settings script outcome notes.new (W.contents target.old.writer.now) (W.contents target.new.writer.now))) }
    ensures short { OnOk result (IfSome (R.remaining source.old.reader.now) (λ script. length script ≤ 16777216)) }
    ensures too_long_only { result ≡ Err RunFault.TooLong → IfSome (R.remaining source.old.reader.now) (λ script. 16777216 < length script) }
    ensures partly { (kind : ErrorKind) → result ≡ Err (RunFault.Write kind) → IfSome (R.remaining source.old.reader.now) (λ script.
        IsPartlyDriven settings script (W.contents target.old.writer.now) (W.contents target.new.writer.now)) }
    ensures ended { Ended result source.new.reads target.new.writes }
    ensures read_unwritten { (kind : ErrorKind) → result ≡ Err (RunFault.Read kind) → target.new ≡ target.old }
    ensures too_long_unwritten { result ≡ Err RunFault.TooLong → target.new ≡ target.old }
    ensures memory_unwritten { result ≡ Err RunFault.Memory → target.new ≡ target.old }
{
    let Ok(mut output) = Output::new(alloc) else {
        return Err(RunFault::Memory);
    };
    let Ok(mut set_up) = SetUp::open(alloc, &settings.device()) else {
        return Err(RunFault::Memory);
    };
    set_up.exchange_notes(notes);
    let outcome = q_script::run_between(alloc, source, target, &mut set_up)?;
    set_up.exchange_notes(notes);
    let device = set_up.into_device();
    match drive_and_write(rt, alloc, device, &settings, outcome, &mut output, target) {
        Ok(outcome) => Ok(outcome),
        Err(fault) => Err(RunFault::Write(fault.kind)),
    }
}

/// Lets the senders run over a device, and writes what they came to behind a report with this outcome. What they came to is dropped
/// here, where nothing else is owned.
fn drive_and_write<H: Threads + Wait + Sync, W: Write>(
    rt: &H,
    alloc: Global,
    device: Device,
    settings: &DriveSettings,
    outcome: Outcome,
    output: &mut Output,
    target: &mut Target<'_, W>,
) -> Result<Outcome, WriteFault>
    requires nothing { device.device.tree.top.arrived ≡ no_totals }
    requires empty { output.old ≡ [] }
    requires going { MayWrite target.old.writes }
    ensures same_writer { target.new.writer.ghost_name ≡ target.old.writer.ghost_name }
    ensures ok { IfOk result (λ told. IsEnded settings.now outcome told (W.contents target.old.writer.now) (W.contents target.new.writer.now)) }
    ensures err { OnErr result (IsPartlyEnded settings.now (W.contents target.old.writer.now) (W.contents target.new.writer.now)) }
    ensures going { OnOk result (MayWrite target.new.writes) }
    ensures failed { IfErr result (λ fault. WriteFailed target.new.writes fault.kind) }
{
    let driven = drive_device(rt, alloc, device, settings);
    write_end(&driven, settings.show(), outcome, output, target)
}

/// Writes the totals of the senders after a report with this outcome, and returns the outcome of the whole.
fn write_end<W: Write>(
    driven: &Option<Driven>,
    show: bool,
    outcome: Outcome,
    output: &mut Output,
    target: &mut Target<'_, W>,
) -> Result<Outcome, WriteFault>
    requires empty { output.old ≡ [] }
    requires going { MayWrite target.old.writes }
    ensures outcome { IfOk result (λ told. told ≡ outcome_with driven.now outcome) }
    ensures written { HasWrittenWhole W.contents target.old target.new (ending_text show driven.now) result }
{
    if let Err(fault) = write_ending(driven, show, output, target) {
        return Err(fault);
    }
    match driven {
        Some(_) => Ok(outcome),
        None => Ok(Outcome::Refused),
    }
}

/// Reads a script of at most 16,777,216 bytes, whose tc lines set up a device; then lets the senders run, each on a thread of its
/// own; and writes the report of the script, and the totals of the senders. It waits for the threads. No line is run before
/// the whole script was read.
///
/// After `Read`, `TooLong` and `Memory` nothing was written, and after `Write` (any error of a write, or one that takes no byte)
/// a front of a report, and not all of it. [`run_drive_between`] says when each of them comes. An allocation that fails for
/// the senders is a line of the report.
pub fn run_drive<H: Threads + Wait + Sync, R: Read, W: Write>(
    rt: &H,
    alloc: Global,
    reader: &mut R,
    writer: &mut W,
    settings: DriveSettings,
) -> Result<Outcome, RunFault>
    // What was written is the report of what the reader had and of what the senders came to, and nothing else.
    ensures report { IfOk result (λ outcome. IfSome (R.remaining reader.old) (λ script.
        IsDriven settings script outcome (W.contents writer.old) (W.contents writer.new))) }
    ensures short { OnOk result (IfSome (R.remaining reader.old) (λ script. length script ≤ 16777216)) }

    ensures read { (kind : ErrorKind) → result ≡ Err (RunFault.Read kind) → Keeps (W.contents writer.old) (W.contents writer.new) }
    ensures too_long { result ≡ Err RunFault.TooLong → Keeps (W.contents writer.old) (W.contents writer.new) }
    ensures too_long_only { result ≡ Err RunFault.TooLong → IfSome (R.remaining reader.old) (λ script. 16777216 < length script) }
    ensures memory { result ≡ Err RunFault.Memory → Keeps (W.contents writer.old) (W.contents writer.new) }
    ensures write { (kind : ErrorKind) → result ≡ Err (RunFault.Write kind) → IfSome (R.remaining reader.old) (λ script.
        IsPartlyDriven settings script (W.contents writer.old) (W.contents writer.new)) }
{
    let mut source = Source::new(reader);
    let mut target = Target::new(writer);
    run_drive_between(rt, alloc, &mut source, &mut target, settings)
}
