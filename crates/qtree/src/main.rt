//! The program `qtree`: `qtree play` reads a script, of a file or of standard input, and writes its report on standard output; `qtree
//! drive` sets up a device by tc's lines on standard input, drives it from many threads, and writes what came of it.
//!
//! - [`q_options::answer`] does what a command line asks for, and returns the exit status.
//!   It rests on `run_between` of `q_session`, whose contract is the program's theorem: what was written is the report of the
//!   whole model's replay, or a read or a write failed, and the result says so; and on `run_drive_between` of `q_drive`.
#![tactic(auto)]

use q_options::{PromptedReader, Standard, answer};
use q_script::Source;
use q_show::Target;
use std::io::IsTerminal;
use std::process::ExitCode;
use std::{env, io};

fn main(rt: HostRuntime) -> ExitCode {
    let is_terminal = rt.stdin().is_terminal();
    let mut input = Standard::new(PromptedReader::new(rt.reader(), rt.stderr(), is_terminal));
    let mut output = Standard::new(io::writer(&rt));
    let mut errors = rt.stderr();
    let mut source = Source::new(&mut input);
    let mut target = Target::new(&mut output);
    ExitCode::from(answer(
        &rt,
        rt.alloc(),
        words(&rt),
        &mut source,
        &mut target,
        &mut errors,
    ))
}

/// The words of the command line, the program's name first.
fn words(rt: &HostRuntime) -> io::Result<Vec<String>> {
    Ok(env::args(rt)?.collect(rt.alloc())?)
}
