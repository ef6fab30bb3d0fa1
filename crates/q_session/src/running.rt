ghost use Rattle.std.specs.Prelude.{◌≡◌, ◌≤◌, ◌<◌, length, IfOk, IfSome, OnOk, Err};
ghost use Rattle.std.specs.Io.KnownBytes.{Keeps};
ghost use Rattle.q_show.specs.Writes.{no_writes};
ghost use Rattle.q_script.specs.Ended.{Ended};
ghost use Rattle.q_script.specs.Reads.{no_reads};
ghost use Rattle.q_session.specs.Reported.{IsReported, IsReportedOf, IsPartlyReported};
ghost use Rattle.q_session.specs.Session.{opened};

use crate::device_session::DeviceSession;
use q_script::{Outcome, RunFault, RunSettings, Source};
use q_show::Target;
use std::alloc::Global;
use std::io::{ErrorKind, Read, Write};

/// Runs a script as [`run`] does, from a source that was not read yet to a target that was not written yet. How their reads and
/// writes ended decides the result:
///
/// - An outcome: the reads reached the end, and no read or write failed.
/// - `Read`: the last read failed, or all of the 16,777,218 reads were made, some of which were interrupted.
/// - `Write`: the last write failed or took no byte, or it was interrupted once more than a text's writes may be.
///
/// Every read or write that fails is reported by this result, with the kind of its error.
pub fn run_between<R: Read, W: Write>(
    alloc: Global,
    source: &mut Source<'_, R>,
    target: &mut Target<'_, W>,
    settings: RunSettings,
) -> Result<Outcome, RunFault>
    requires unread { source.old.reads ≡ no_reads }
    requires unwritten { target.old.writes ≡ no_writes }
    ensures same_reader { source.new.reader.ghost_name ≡ source.old.reader.ghost_name }
    ensures same_writer { target.new.writer.ghost_name ≡ target.old.writer.ghost_name }
    ensures report { IfOk result (λ outcome. IfSome (R.remaining source.old.reader.now) (λ script.
        IsReported settings script outcome (W.contents target.old.writer.now) (W.contents target.new.writer.now))) }
    ensures short { OnOk result (IfSome (R.remaining source.old.reader.now) (λ script. length script ≤ 16777216)) }
    ensures too_long_only { result ≡ Err RunFault.TooLong → IfSome (R.remaining source.old.reader.now) (λ script. 16777216 < length script) }
    ensures partly { (kind : ErrorKind) → result ≡ Err (RunFault.Write kind) → IfSome (R.remaining source.old.reader.now) (λ script.
        IsPartlyReported settings script (W.contents target.old.writer.now) (W.contents target.new.writer.now)) }

    // What the reads and writes came to, and what was written where no report was.
    ensures ended { Ended result source.new.reads target.new.writes }
    ensures read_unwritten { (kind : ErrorKind) → result ≡ Err (RunFault.Read kind) → target.new ≡ target.old }
    ensures too_long_unwritten { result ≡ Err RunFault.TooLong → target.new ≡ target.old }
    ensures memory_unwritten { result ≡ Err RunFault.Memory → target.new ≡ target.old }
{
    let Ok(mut session) = DeviceSession::open(alloc, &settings) else {
        return Err(RunFault::Memory);
    };
    run_session(alloc, source, target, settings, &mut session)
}

/// Runs a script as [`run_between`] does, in a session that was opened with these settings and has run no line. The session then says how
/// many lines were not done.
pub fn run_session<R: Read, W: Write>(
    alloc: Global,
    source: &mut Source<'_, R>,
    target: &mut Target<'_, W>,
    settings: RunSettings,
    session: &mut DeviceSession,
) -> Result<Outcome, RunFault>
    requires new { session.old ≡ opened settings }
    requires unread { source.old.reads ≡ no_reads }
    requires unwritten { target.old.writes ≡ no_writes }
    ensures same_reader { source.new.reader.ghost_name ≡ source.old.reader.ghost_name }
    ensures same_writer { target.new.writer.ghost_name ≡ target.old.writer.ghost_name }
    ensures report { IfOk result (λ outcome. IfSome (R.remaining source.old.reader.now) (λ script.
        IsReportedOf settings script outcome session.new.state.not_done (W.contents target.old.writer.now) (W.contents target.new.writer.now))) }
    ensures short { OnOk result (IfSome (R.remaining source.old.reader.now) (λ script. length script ≤ 16777216)) }
    ensures too_long_only { result ≡ Err RunFault.TooLong → IfSome (R.remaining source.old.reader.now) (λ script. 16777216 < length script) }
    ensures partly { (kind : ErrorKind) → result ≡ Err (RunFault.Write kind) → IfSome (R.remaining source.old.reader.now) (λ script.
        IsPartlyReported settings script (W.contents target.old.writer.now) (W.contents target.new.writer.now)) }
    ensures ended { Ended result source.new.reads target.new.writes }
    ensures read_unwritten { (kind : ErrorKind) → result ≡ Err (RunFault.Read kind) → target.new ≡ target.old }
    ensures too_long_unwritten { result ≡ Err RunFault.TooLong → target.new ≡ target.old }
    ensures memory_unwritten { result ≡ Err RunFault.Memory → target.new ≡ target.old }
{
    q_script::run_between(alloc, source, target, session)
}

/// Reads a script of at most 16,777,216 bytes and writes its report. No line is run before the whole script was read. The
/// reader is asked 16,777,218 times at most; a read that was interrupted counts as one.
///
/// After `Read`, `TooLong` and `Memory` nothing was written, and after `Write` (any error of a write, or one that takes no
/// byte) a front of a report, and not all of it. [`run_between`] says when each of them comes.
pub fn run<R: Read, W: Write>(
    alloc: Global,
    reader: &mut R,
    writer: &mut W,
    settings: RunSettings,
) -> Result<Outcome, RunFault>
    // What was written is the report of what the reader had, and nothing else.
    ensures report { IfOk result (λ outcome. IfSome (R.remaining reader.old) (λ script.
        IsReported settings script outcome (W.contents writer.old) (W.contents writer.new))) }
    ensures short { OnOk result (IfSome (R.remaining reader.old) (λ script. length script ≤ 16777216)) }

    ensures read { (kind : ErrorKind) → result ≡ Err (RunFault.Read kind) → Keeps (W.contents writer.old) (W.contents writer.new) }
    ensures too_long { result ≡ Err RunFault.TooLong → Keeps (W.contents writer.old) (W.contents writer.new) }
    ensures too_long_only { result ≡ Err RunFault.TooLong → IfSome (R.remaining reader.old) (λ script. 16777216 < length script) }
    ensures memory { result ≡ Err RunFault.Memory → Keeps (W.contents writer.old) (W.contents writer.new) }
    ensures write { (kind : ErrorKind) → result ≡ Err (RunFault.Write kind) → IfSome (R.remaining reader.old) (λ script.
        IsPartlyReported settings script (W.contents writer.old) (W.contents writer.new)) }
{
    let mut source = Source::new(reader);
    let mut target = Target::new(writer);
    run_between(alloc, &mut source, &mut target, settings)
}
