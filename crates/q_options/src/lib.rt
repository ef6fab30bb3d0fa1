//! The command line of the program `qtree`, and what the program answers.
//!
//! - [`answer`] does what a command line asks for, from any reader, to any writer and error writer, and answers the exit
//!   status. `main` calls it and nothing else.
//! - [`play`] is the part of it that runs a script, and [`drive`] the one that drives a device: the status, the report, and the line
//!   that reports a [`Fault`].
//!   Where lines are to be explained, it writes what q_explain says of each that has a fault or was refused; else how many there are.
//! - [`options`] reads what the command line asks for, as [`Options`].
//! - [`run`] runs a script with [`RunSettings`], and [`run_drive`] drives a device with [`DriveSettings`], from any reader to any
//!   writer: what a program calls that has no command line. They answer an [`Outcome`] or a [`RunFault`], and are in q_session
//!   and q_drive.
//!
//! - [`Standard`] is the standard input or output that `main` hands to [`answer`]: a closed one is reported as such. [`PromptedReader`]
//!   says before its first read that standard input is a terminal.
//!
//! `specs/Answer.antt` says what is answered, and `specs/Usage.antt` which line comes on wrong usage. What clap prints is in no contract.
#![tactic(auto)]

mod answering;
mod command_line;
mod drive_options;
mod driving;
mod explaining;
mod fault;
mod play_asked;
mod play_options;
mod playing;
mod program_options;
mod prompted_reader;
mod standard;
mod telling;
mod telling_of_lines;
mod usage;

pub use answering::answer;
pub use command_line::options;
pub use drive_options::DriveOptions;
pub use driving::drive;
pub use fault::Fault;
pub use play_options::PlayOptions;
pub use playing::play;
pub use program_options::Options;
pub use prompted_reader::PromptedReader;
pub use q_drive::{DriveSettings, run_drive};
pub use q_script::{Outcome, RunFault, RunSettings};
pub use q_session::run;
pub use standard::Standard;
