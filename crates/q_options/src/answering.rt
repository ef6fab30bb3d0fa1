ghost use Rattle.std.specs.Prelude.{◌≡◌, ◌≢◌, ◌≤◌, ◌⊎◌, IfErr, IfOk, map, string_bytes};
ghost use Rattle.std.specs.Io.KnownBytes.{Keeps};
ghost use Rattle.std.specs.IoError.{error_kind};
ghost use Rattle.clap.specs.Words.{kind_of as clap_kind};
ghost use Rattle.clap.specs.declared.error.kind.ErrorKind.TheVariants.{DisplayHelp, DisplayVersion};
ghost use Rattle.q_options.specs.Answer.{IsDriveAnsweredOf, IsPlayedFrom, IsShown, IsTold, IsTurnedDown};
ghost use Rattle.q_options.specs.Usage.{AsksForNothing, IsHelpFailed, IsToldBy, IsTurnedDownWith};
ghost use Rattle.q_options.specs.CommandLine.{IsAsked};
ghost use Rattle.q_options.specs.declared.drive_options.DriveOptions.{DriveOptions};
ghost use Rattle.q_options.specs.declared.play_options.PlayOptions.{PlayOptions};
ghost use Rattle.q_options.specs.declared.program_options.Options.{Options as Asked};
ghost use Rattle.q_options.specs.declared.fault.Fault.{Fault as SomeFault};
ghost use Rattle.q_script.specs.Reads.{no_reads};
ghost use Rattle.q_show.specs.Writes.{no_writes, WriteFailed};

use crate::command_line::options;
use crate::driving::drive_of;
use crate::fault::Fault;
use crate::play_asked::play_asked;
use crate::playing::FAULT;
use crate::program_options::Options;
use crate::telling::tell;
use crate::usage::tell_usage;
use clap::error::ErrorKind as UsageFault;
use q_script::{RunFault, Source};
use q_show::Target;
use std::alloc::Global;
use std::fs::Files;
use std::io::{Error, ErrorKind, Read, Write};
use std::sync::Wait;
use std::thread::Threads;

/// Does what a command line asks for, the program's name first, and answers the exit status: that of [`play`](crate::play) or of [`drive`]; 0
/// where help or the version was asked for and is written to the output; 2, with one line on the error output, where nothing that can
/// be done was asked for. The source is read only to drive, or to play where no file is named. It waits for the threads of `drive`.
///
/// The source and the target are new. What their reads and writes came to says which answer this is: no fault of a read or a
/// write is reported but that it came, and none that came is left unreported.
pub fn answer<H: Files + Threads + Wait + Sync, R: Read, W: Write, E: Write>(
    rt: &H,
    alloc: Global,
    words: Result<Vec<String>, Error>,
    source: &mut Source<'_, R>,
    target: &mut Target<'_, W>,
    errors: &mut E,
) -> u8
    requires unread { source.old.reads ≡ no_reads }
    requires unwritten { target.old.writes ≡ no_writes }
    ensures same_reader { source.new.reader.ghost_name ≡ source.old.reader.ghost_name }
    ensures same_writer { target.new.writer.ghost_name ≡ target.old.writer.ghost_name }
    ensures statuses { result ≤ 2 }
    // The settings are those of the words.
    ensures answer { (IsShown source.old source.new target.old target.new (E.contents errors.old) (E.contents errors.new) target.new.writes result
        × IfOk words (λ all. IsTurnedDown (map string_bytes all.items) result))
        ⊎ ((options : PlayOptions) × IfOk words (λ all. IsAsked (map string_bytes all.items) (Asked.Play options)) × IsPlayedFrom H.File.Read.remaining options source.old source.new target.old target.new
        (R.remaining source.old.reader.now) (W.contents target.old.writer.now) (W.contents target.new.writer.now)
        (E.contents errors.old) (E.contents errors.new) source.new.reads target.new.writes result)
        ⊎ ((options : DriveOptions) × IfOk words (λ all. IsAsked (map string_bytes all.items) (Asked.Drive options)) × IsDriveAnsweredOf options.explain options.settings (R.remaining source.old.reader.now)
        (W.contents target.old.writer.now) (W.contents target.new.writer.now)
        (E.contents errors.old) (E.contents errors.new) source.new.reads target.new.writes result) }
    // On wrong usage the error output has one line, which names the help of the command.
    ensures wrong_usage { IfOk words (λ all. AsksForNothing (map string_bytes all.items) → result ≡ 2
        → IsTurnedDownWith (map string_bytes all.items) target.new.writes (E.contents errors.old) (E.contents errors.new)) }
    // The words of the command line could not be had: one is not UTF-8, or there is no memory for them.
    ensures not_utf8 { IfErr words (λ error. error_kind error ≡ ErrorKind.InvalidData →
        IsTold SomeFault.Argument (E.contents errors.old) (E.contents errors.new)) }
    ensures no_memory { IfErr words (λ error. error_kind error ≢ ErrorKind.InvalidData →
        IsTold (SomeFault.Run RunFault.Memory) (E.contents errors.old) (E.contents errors.new)) }
{
    let words = match words {
        Ok(words) => words,
        Err(error) => {
            tell(Fault::of_words(error.kind()), errors);
            return FAULT;
        }
    };
    let options = match options(alloc, &words) {
        Ok(options) => options,
        Err(error) => return show(alloc, &error, &words, target, errors),
    };
    match options {
        Options::Play(options) => play_asked(rt, alloc, &options, source, target, errors),
        Options::Drive(options) => drive_of(
            rt,
            alloc,
            options.settings,
            options.explain,
            source,
            target,
            errors,
        ),
    }
}

/// Writes what clap has to say: help and the version to the output, with status 0; of wrong usage one line to the error output.
fn show<W: Write, E: Write>(
    alloc: Global,
    error: &clap::Error,
    words: &[String],
    target: &mut Target<'_, W>,
    errors: &mut E,
) -> u8
    requires unwritten { target.old.writes ≡ no_writes }
    ensures same_writer { target.new.writer.ghost_name ≡ target.old.writer.ghost_name }
    ensures status { (result ≡ 0) ⊎ (result ≡ 2) }
    ensures shown { result ≡ 0 → (clap_kind error.now ≡ DisplayHelp) ⊎ (clap_kind error.now ≡ DisplayVersion) }
    ensures silent { result ≡ 0 → Keeps (E.contents errors.old) (E.contents errors.new) }
    ensures kept { result ≡ 2 → (target.new ≡ target.old) ⊎ ((kind : ErrorKind) × IsTold (SomeFault.Help kind) (E.contents errors.old) (E.contents errors.new)
        × WriteFailed target.new.writes kind) }
    ensures told { result ≡ 2 → IsToldBy (map string_bytes words.now) (clap_kind error.now) target.new.writes (E.contents errors.old) (E.contents errors.new) }
{
    match error.kind() {
        UsageFault::OutOfMemory => {
            tell(Fault::Run(RunFault::Memory), errors);
            FAULT
        }
        UsageFault::DisplayHelp | UsageFault::DisplayVersion => {
            show_text(alloc, error, target, errors)
        }
        _ => {
            tell_usage(error, words, errors);
            FAULT
        }
    }
}

/// Writes clap's text to the output, with status 0.
fn show_text<W: Write, E: Write>(
    alloc: Global,
    error: &clap::Error,
    target: &mut Target<'_, W>,
    errors: &mut E,
) -> u8
    requires unwritten { target.old.writes ≡ no_writes }
    ensures same_writer { target.new.writer.ghost_name ≡ target.old.writer.ghost_name }
    ensures status { (result ≡ 0) ⊎ (result ≡ 2) }
    ensures silent { result ≡ 0 → Keeps (E.contents errors.old) (E.contents errors.new) }
    ensures kept { result ≡ 2 → (target.new ≡ target.old) ⊎ ((kind : ErrorKind) × IsTold (SomeFault.Help kind) (E.contents errors.old) (E.contents errors.new)
        × WriteFailed target.new.writes kind) }
    ensures told { result ≡ 2 → IsHelpFailed target.new.writes (E.contents errors.old) (E.contents errors.new) }
{
    let Ok(text) = format!(in alloc; "{error}") else {
        tell(Fault::Run(RunFault::Memory), errors);
        return FAULT;
    };
    match target.write_whole(text.as_bytes()) {
        Ok(()) => 0,
        Err(failed) => {
            tell(Fault::Help(failed.kind), errors);
            FAULT
        }
    }
}
