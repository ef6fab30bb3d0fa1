//! Playing what a command line asks for: a file or standard input.
ghost use Rattle.std.specs.Prelude.{◌≡◌, ◌≤◌, option_map};
ghost use Rattle.q_options.specs.Answer.{IsPlayedFrom, IsPlayedOf};
ghost use Rattle.q_script.specs.Reads.{no_reads};
ghost use Rattle.q_show.specs.Writes.{no_writes};

use crate::fault::Fault;
use crate::play_options::PlayOptions;
use crate::playing::{FAULT, play_of};
use crate::telling::tell_of;
use q_script::{RunFault, Source};
use q_show::Target;
use std::alloc::Global;
use std::fs::{self, Files};
use std::io::{Read, Write};

/// Plays the script of the file that the options name, or of the source where they name none, and answers the exit status of
/// [`play`](crate::play). The source is not read where there is a file. The source and the target are new.
pub fn play_asked<H: Files, R: Read, W: Write, E: Write>(
    rt: &H,
    alloc: Global,
    options: &PlayOptions,
    source: &mut Source<'_, R>,
    target: &mut Target<'_, W>,
    errors: &mut E,
) -> u8
    requires unread { source.old.reads ≡ no_reads }
    requires unwritten { target.old.writes ≡ no_writes }
    ensures same_reader { source.new.reader.ghost_name ≡ source.old.reader.ghost_name }
    ensures same_writer { target.new.writer.ghost_name ≡ target.old.writer.ghost_name }
    ensures statuses { result ≤ 2 }
    ensures played { IsPlayedFrom H.File.Read.remaining options.now source.old source.new target.old target.new
        (R.remaining source.old.reader.now) (W.contents target.old.writer.now) (W.contents target.new.writer.now)
        (E.contents errors.old) (E.contents errors.new) source.new.reads target.new.writes result }
{
    let (settings, explains) = (options.settings, options.explain);
    let Some(path) = &options.file else {
        return play_of(alloc, None, settings, explains, source, target, errors);
    };
    let mut file = match fs::open(rt, path.as_str()) {
        Ok(file) => file,
        Err(error) => {
            let fault = RunFault::Read(error.kind());
            tell_of(Some(path.as_str()), Fault::Run(fault), errors);
            return FAULT;
        }
    };
    let mut source = Source::new(&mut file);
    let path = Some(path.as_str());
    play_of(alloc, path, settings, explains, &mut source, target, errors)
}
