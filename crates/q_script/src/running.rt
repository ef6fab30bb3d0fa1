ghost use Rattle.std.specs.Prelude.{◌≡◌, ◌≤◌, ◌<◌, ◌+◌, ◌^◌, [], length, IfOk, IfErr, IfSome, OnOk, OnErr, Err};
ghost use Rattle.std.specs.Io.KnownBytes.{Keeps};
ghost use Rattle.q_show.specs.Writes.{no_writes, MayWrite, WriteFailed};
ghost use Rattle.q_script.specs.Ended.{Ended};
ghost use Rattle.q_script.specs.Reads.{no_reads};
ghost use Rattle.q_script.specs.Step.{IsRun, IsPartlyRun, IsWholeRun};

use crate::lines::split_line;
use crate::outcome::Outcome;
use crate::output::Output;
use crate::run_fault::RunFault;
use crate::script::read_script;
use crate::session::Session;
use crate::source::Source;
use q_show::{Target, WriteFault};
use std::alloc::Global;
use std::io::{ErrorKind, Read, Write};

/// Runs the lines of a script in turn, and writes what they report.
fn run_lines<W: Write, S: Session>(
    session: &mut S,
    script: &[u8],
    output: &mut Output,
    target: &mut Target<'_, W>,
) -> Result<(), WriteFault>
    requires short { length script.now ≤ 16777216 }
    requires new { S.packets session.old ≡ 0 }
    requires clean { S.not_done session.old ≡ 0 }
    requires empty { output.old ≡ [] }
    requires going { MayWrite target.old.writes }
    ensures same_writer { target.new.writer.ghost_name ≡ target.old.writer.ghost_name }
    ensures ok { OnOk result (IsWholeRun S.effect script.now session.old session.new
        (W.contents target.old.writer.now) (W.contents target.new.writer.now)) }
    ensures err { OnErr result (IsPartlyRun S.effect script.now session.old
        (W.contents target.old.writer.now) (W.contents target.new.writer.now)) }
    ensures going { OnOk result (MayWrite target.new.writes) }
    ensures failed { IfErr result (λ fault. WriteFailed target.new.writes fault.kind) }
{
    let mut rest = script;
    let mut number = 1u64;
    while !rest.is_empty() {
        let (line, behind) = split_line(rest);
        session.run_line(number, line, output, target)?;
        rest = behind;
        number += 1;
    }
    output.flush(target)
}

/// Runs a script as [`run`] does, from a source that was not read yet to a target that was not written yet. How their reads and
/// writes ended decides the result:
///
/// - An outcome: the reads reached the end, and no read or write failed.
/// - `Read`: the last read failed, or all of the 16,777,218 reads were made, some of which were interrupted.
/// - `Write`: the last write failed or took no byte, or it was interrupted once more than a text's writes may be.
///
/// Every read or write that fails is reported by this result, with the kind of its error.
pub fn run_between<R: Read, W: Write, S: Session>(
    alloc: Global,
    source: &mut Source<'_, R>,
    target: &mut Target<'_, W>,
    session: &mut S,
) -> Result<Outcome, RunFault>
    requires new { S.packets session.old ≡ 0 }
    requires clean { S.not_done session.old ≡ 0 }
    requires unread { source.old.reads ≡ no_reads }
    requires unwritten { target.old.writes ≡ no_writes }
    ensures same_reader { source.new.reader.ghost_name ≡ source.old.reader.ghost_name }
    ensures same_writer { target.new.writer.ghost_name ≡ target.old.writer.ghost_name }
    ensures report { IfOk result (λ outcome. IfSome (R.remaining source.old.reader.now) (λ script.
        IsRun S.effect S.not_done script session.old session.new outcome (W.contents target.old.writer.now) (W.contents target.new.writer.now))) }
    ensures short { OnOk result (IfSome (R.remaining source.old.reader.now) (λ script. length script ≤ 16777216)) }
    ensures too_long_only { result ≡ Err RunFault.TooLong → IfSome (R.remaining source.old.reader.now) (λ script. 16777216 < length script) }
    ensures partly { (kind : ErrorKind) → result ≡ Err (RunFault.Write kind) → IfSome (R.remaining source.old.reader.now) (λ script.
        IsPartlyRun S.effect script session.old (W.contents target.old.writer.now) (W.contents target.new.writer.now)) }

    // What the reads and writes came to, and what was written where no report was.
    ensures ended { Ended result source.new.reads target.new.writes }
    ensures read_unwritten { (kind : ErrorKind) → result ≡ Err (RunFault.Read kind) → target.new ≡ target.old }
    ensures too_long_unwritten { result ≡ Err RunFault.TooLong → target.new ≡ target.old }
    ensures memory_unwritten { result ≡ Err RunFault.Memory → target.new ≡ target.old }
{
    let script = match read_script(alloc, source) {
        Ok(script) => script,
        Err(fault) => return Err(RunFault::from(fault)),
    };
    let mut output = Output::new(alloc).map_err(|_| RunFault::Memory)?;
    match run_lines(session, &script, &mut output, target) {
        Ok(()) if session.not_done() == 0 => Ok(Outcome::Clean),
        Ok(()) => Ok(Outcome::Refused),
        Err(fault) => Err(RunFault::Write(fault.kind)),
    }
}

/// Reads a script of at most 16,777,216 bytes, runs its lines in a session that has run none, and writes the report.
/// No line is run before the whole script was read. The reader is asked 16,777,218 times at most; a read that was interrupted
/// counts as one.
///
/// After `Read`, `TooLong` and `Memory` nothing was written, and after `Write` (any error of a write, or one that takes no
/// byte) a front of a report, and not all of it. [`run_between`] says when each of them comes.
pub fn run<R: Read, W: Write, S: Session>(
    alloc: Global,
    reader: &mut R,
    writer: &mut W,
    session: &mut S,
) -> Result<Outcome, RunFault>
    requires new { S.packets session.old ≡ 0 }
    requires clean { S.not_done session.old ≡ 0 }
    // What was written is the report of what the reader had, and nothing else.
    ensures report { IfOk result (λ outcome. IfSome (R.remaining reader.old) (λ script.
        IsRun S.effect S.not_done script session.old session.new outcome (W.contents writer.old) (W.contents writer.new))) }
    ensures short { OnOk result (IfSome (R.remaining reader.old) (λ script. length script ≤ 16777216)) }

    ensures read { (kind : ErrorKind) → result ≡ Err (RunFault.Read kind) → Keeps (W.contents writer.old) (W.contents writer.new) }
    ensures too_long { result ≡ Err RunFault.TooLong → Keeps (W.contents writer.old) (W.contents writer.new) }
    ensures too_long_only { result ≡ Err RunFault.TooLong → IfSome (R.remaining reader.old) (λ script. 16777216 < length script) }
    ensures memory { result ≡ Err RunFault.Memory → Keeps (W.contents writer.old) (W.contents writer.new) }
    ensures write { (kind : ErrorKind) → result ≡ Err (RunFault.Write kind) → IfSome (R.remaining reader.old) (λ script.
        IsPartlyRun S.effect script session.old (W.contents writer.old) (W.contents writer.new)) }
{
    let mut source = Source::new(reader);
    let mut target = Target::new(writer);
    run_between(alloc, &mut source, &mut target, session)
}
