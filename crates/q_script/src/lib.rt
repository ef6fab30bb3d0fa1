//! Runs a script: from its bytes to the bytes of its report, whatever its lines mean.
//!
//! - [`run`] reads a script from any reader, cuts it into lines, lets a [`Session`] run each of them in turn and writes
//!   what they report to any writer. Its contract says what was written, for every script and every session: the report
//!   `run_of` of `specs/Step.antt`, for some list of lines at which an allocation failed, and nothing else; that the outcome is
//!   `Refused` if and only if a line had a fault or was refused, as the session says at the end; and what each `RunFault` leaves.
//! - [`Session`] is what runs a line. It says by its `effect` what a line writes and what it leaves, and writes through an
//!   [`Output`], which buffers the report's text.
//! - [`run_between`] does the same from a [`Source`] to a `Target` of `q_show`, which are a reader and a writer that keep
//!   how their reads and writes ended. Its contract says when each fault comes: how many reads are made, that `Read` and
//!   `Write` report every read and write that failed and nothing else, and that an outcome means that none did. A source
//!   is not read, nor a target written, after one that failed.
//! - [`RunSettings`] are the options of a run, [`Outcome`] and [`RunFault`] what it returns. A fault of a read or a write has
//!   the kind of its error.
//!
//! `specs/Script.antt` cuts a script into lines and says how a report speaks of one, `specs/Step.antt` has the report of all
//! lines together, `specs/Reads.antt` how reads end, `specs/Lengths.antt` the room in the output and `specs/Settings.antt`
//! the settings.
//! The crate knows nothing of devices and of what a line may say: a session brings both.
#![tactic(auto)]

mod lines;
mod outcome;
mod output;
mod run_fault;
mod running;
mod script;
mod script_fault;
mod session;
mod settings;
mod source;

pub use lines::split_line;
pub use outcome::Outcome;
pub use output::Output;
pub use run_fault::RunFault;
pub use running::{run, run_between};
pub use script::MAX_LENGTH;
pub use session::Session;
pub use settings::RunSettings;
pub use source::{Reads, Source};
