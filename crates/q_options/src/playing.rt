ghost use Rattle.std.specs.Prelude.{◌≡◌, ◌≢◌, ◌≤◌, option_map, true};
ghost use Rattle.q_options.specs.Answer.{IsPlayed, IsPlayedOf, IsPlayedWith};
ghost use Rattle.q_script.specs.Reads.{no_reads};
ghost use Rattle.q_session.specs.Session.{opened};
ghost use Rattle.q_show.specs.Writes.{no_writes};

use crate::fault::Fault;
use crate::telling::tell_of;
use crate::telling_of_lines::{notes_for, tell_lines};
use q_script::{RunFault, RunSettings, Source};
use q_session::{DeviceSession, run_session};
use q_show::Target;
use std::alloc::Global;
use std::io::{Read, Write};

/// The status where nothing was run, or the report not written: usage, input, output or memory.
pub const FAULT: u8 = 2;

/// Reads a script, writes its report, and answers the exit status of `qtree play`: 0; 1 where a line had a fault or was
/// refused, with a line on the error output that says how many were; 2 where nothing was run or the report not written, with one line
/// there that says why. The source and the target are new.
pub fn play<R: Read, W: Write, E: Write>(
    alloc: Global,
    settings: RunSettings,
    source: &mut Source<'_, R>,
    target: &mut Target<'_, W>,
    errors: &mut E,
) -> u8
    requires unread { source.old.reads ≡ no_reads }
    requires unwritten { target.old.writes ≡ no_writes }
    ensures same_reader { source.new.reader.ghost_name ≡ source.old.reader.ghost_name }
    ensures same_writer { target.new.writer.ghost_name ≡ target.old.writer.ghost_name }
    ensures statuses { result ≤ 2 }
    ensures played { IsPlayed settings (R.remaining source.old.reader.now)
        (W.contents target.old.writer.now) (W.contents target.new.writer.now)
        (E.contents errors.old) (E.contents errors.new) source.new.reads target.new.writes result }
{
    play_of(alloc, None, settings, false, source, target, errors)
}

/// The same, of a script whose file is named where it could not be read. Where it is asked for, each line that has a fault or was
/// refused, or may not be wanted so, is explained on the error output, behind the whole report; where the report is not written, none is.
pub fn play_of<R: Read, W: Write, E: Write>(
    alloc: Global,
    file: Option<&str>,
    settings: RunSettings,
    explains: bool,
    source: &mut Source<'_, R>,
    target: &mut Target<'_, W>,
    errors: &mut E,
) -> u8
    requires unread { source.old.reads ≡ no_reads }
    requires unwritten { target.old.writes ≡ no_writes }
    ensures same_reader { source.new.reader.ghost_name ≡ source.old.reader.ghost_name }
    ensures same_writer { target.new.writer.ghost_name ≡ target.old.writer.ghost_name }
    ensures statuses { result ≤ 2 }
    ensures played { IsPlayedOf explains (option_map (λ path. path.now) file.entry) settings (R.remaining source.old.reader.now)
        (W.contents target.old.writer.now) (W.contents target.new.writer.now)
        (E.contents errors.old) (E.contents errors.new) source.new.reads target.new.writes result }
{
    let Ok(mut session) = DeviceSession::open(alloc, &settings) else {
        tell_of(file, Fault::Run(RunFault::Memory), errors);
        return FAULT;
    };
    let mut notes = notes_for(alloc, explains);
    session.exchange_notes(&mut notes);
    let status = play_in(alloc, file, settings, &mut session, source, target, errors);
    session.exchange_notes(&mut notes);
    tell_lines(alloc, explains, status, &notes, errors);
    status
}

/// The same in a session that was opened with these settings and has run no line. Of lines nothing is reported.
fn play_in<R: Read, W: Write, E: Write>(
    alloc: Global,
    file: Option<&str>,
    settings: RunSettings,
    session: &mut DeviceSession,
    source: &mut Source<'_, R>,
    target: &mut Target<'_, W>,
    errors: &mut E,
) -> u8
    requires new { session.old ≡ opened settings }
    requires unread { source.old.reads ≡ no_reads }
    requires unwritten { target.old.writes ≡ no_writes }
    ensures same_reader { source.new.reader.ghost_name ≡ source.old.reader.ghost_name }
    ensures same_writer { target.new.writer.ghost_name ≡ target.old.writer.ghost_name }
    ensures statuses { result ≤ 2 }
    ensures played { IsPlayedWith true session.new.state.not_done (option_map (λ path. path.now) file.entry) settings (R.remaining source.old.reader.now)
        (W.contents target.old.writer.now) (W.contents target.new.writer.now)
        (E.contents errors.old) (E.contents errors.new) source.new.reads target.new.writes result }
    ensures silent { result ≢ 2 → E.contents errors.new ≡ E.contents errors.old }
{
    match run_session(alloc, source, target, settings, session) {
        Ok(outcome) => outcome.status(),
        Err(fault) => {
            tell_of(file, Fault::Run(fault), errors);
            FAULT
        }
    }
}
