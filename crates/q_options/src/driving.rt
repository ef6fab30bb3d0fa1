ghost use Rattle.std.specs.Prelude.{◌≡◌, ◌≢◌, ◌≤◌, true};
ghost use Rattle.q_options.specs.Answer.{IsDriveAnswered, IsDriveAnsweredOf, IsDriveAnsweredWith};
ghost use Rattle.q_script.specs.Reads.{no_reads};
ghost use Rattle.q_show.specs.Writes.{no_writes};

use crate::fault::Fault;
use crate::playing::FAULT;
use crate::telling::tell;
use crate::telling_of_lines::{notes_for, tell_lines};
use q_drive::{DriveSettings, run_drive_noting};
use q_script::Source;
use q_session::Notes;
use q_show::Target;
use std::alloc::Global;
use std::io::{Read, Write};
use std::sync::Wait;
use std::thread::Threads;

/// Reads tc's lines, lets the senders run, writes what all of it came to, and answers the exit status of `qtree drive`: 0; 1 where a
/// line had a fault or was refused, or an allocation failed for the senders; 2 where nothing was run or the report not written, with
/// one line on the error output that says why. The source and the target are new. It waits for the threads.
pub fn drive<H: Threads + Wait + Sync, R: Read, W: Write, E: Write>(
    rt: &H,
    alloc: Global,
    settings: DriveSettings,
    source: &mut Source<'_, R>,
    target: &mut Target<'_, W>,
    errors: &mut E,
) -> u8
    requires unread { source.old.reads ≡ no_reads }
    requires unwritten { target.old.writes ≡ no_writes }
    ensures same_reader { source.new.reader.ghost_name ≡ source.old.reader.ghost_name }
    ensures same_writer { target.new.writer.ghost_name ≡ target.old.writer.ghost_name }
    ensures statuses { result ≤ 2 }
    ensures driven { IsDriveAnswered settings (R.remaining source.old.reader.now)
        (W.contents target.old.writer.now) (W.contents target.new.writer.now)
        (E.contents errors.old) (E.contents errors.new) source.new.reads target.new.writes result }
{
    drive_of(rt, alloc, settings, false, source, target, errors)
}

/// The same. Where it is asked for, each line that has a fault or was refused, or may not be wanted so, is explained on the error output,
/// behind the whole report; where the report is not written, none is.
pub fn drive_of<H: Threads + Wait + Sync, R: Read, W: Write, E: Write>(
    rt: &H,
    alloc: Global,
    settings: DriveSettings,
    explains: bool,
    source: &mut Source<'_, R>,
    target: &mut Target<'_, W>,
    errors: &mut E,
) -> u8
    requires unread { source.old.reads ≡ no_reads }
    requires unwritten { target.old.writes ≡ no_writes }
    ensures same_reader { source.new.reader.ghost_name ≡ source.old.reader.ghost_name }
    ensures same_writer { target.new.writer.ghost_name ≡ target.old.writer.ghost_name }
    ensures statuses { result ≤ 2 }
    ensures driven { IsDriveAnsweredOf explains settings (R.remaining source.old.reader.now)
        (W.contents target.old.writer.now) (W.contents target.new.writer.now)
        (E.contents errors.old) (E.contents errors.new) source.new.reads target.new.writes result }
{
    let mut notes = notes_for(alloc, explains);
    let status = drive_noting(rt, alloc, settings, &mut notes, source, target, errors);
    tell_lines(alloc, explains, status, &notes, errors);
    status
}

/// The same with notes of the lines, of which nothing is reported.
fn drive_noting<H: Threads + Wait + Sync, R: Read, W: Write, E: Write>(
    rt: &H,
    alloc: Global,
    settings: DriveSettings,
    notes: &mut Notes,
    source: &mut Source<'_, R>,
    target: &mut Target<'_, W>,
    errors: &mut E,
) -> u8
    requires unread { source.old.reads ≡ no_reads }
    requires unwritten { target.old.writes ≡ no_writes }
    ensures same_reader { source.new.reader.ghost_name ≡ source.old.reader.ghost_name }
    ensures same_writer { target.new.writer.ghost_name ≡ target.old.writer.ghost_name }
    ensures statuses { result ≤ 2 }
    ensures driven { IsDriveAnsweredWith true notes.new settings (R.remaining source.old.reader.now)
        (W.contents target.old.writer.now) (W.contents target.new.writer.now)
        (E.contents errors.old) (E.contents errors.new) source.new.reads target.new.writes result }
    ensures silent { result ≢ 2 → E.contents errors.new ≡ E.contents errors.old }
{
    match run_drive_noting(rt, alloc, source, target, settings, notes) {
        Ok(outcome) => outcome.status(),
        Err(fault) => {
            tell(Fault::Run(fault), errors);
            FAULT
        }
    }
}
