//! Runs a script over a whole device: from its bytes to the bytes of its report.
//!
//! - [`run`] reads a script from any reader and writes its report to any writer. Its contract is the theorem of the program:
//!   what was written is `report settings script starved` of `specs/Reported.antt`, for some list of lines at which an
//!   allocation failed, and nothing else; the outcome is `Refused` if and only if some line was faulty or refused; and each
//!   `RunFault` says what was written.
//! - [`run_between`] does the same from a `Source` of `q_script` to a `Target` of `q_show`, which keep how their reads and
//!   writes ended. Its contract says when each fault comes: `Read` and `Write` report every read and write that failed and
//!   nothing else, and an outcome means that none did.
//! - [`DeviceSession`] is the [`Session`](q_script::Session) of `q_script` that runs each line over a `Device` of `q_device`:
//!   arrivals, polls, commands, show texts, losses and counters, as the report of `q_script_semantics` says.
//!   It keeps [`Notes`] of the lines that were not done or may not be wanted so, each with its [`LineNote`]; [`run_session`] runs a
//!   script in a session that the caller opened, as [`run_between`] does in one of its own.
//! - [`show_qdiscs`], [`show_classes`] and [`show_filters`] write what tc's show lines print of a `Tree` of `q_tree`, and
//!   [`ShowFault`] is why they did not. [`put_show`] puts such a text into an `Output` of `q_script`, and
//!   [`put_device`] the line on a device's counters.
//!
//! ```
//! // What `qtree play` does without options.
//! match run(alloc, &mut reader, &mut writer, RunSettings::defaults()) {
//!     Ok(outcome) => outcome.status(),         // 0, or 1 if a line had a fault or was refused
//!     Err(fault) => fail(fault.number()),      // nothing was written, or a beginning of the report
//! }
//! ```
//!
//! `specs/Session.antt` says what a line does to a session, by `q_script_semantics`'s definitions with totals; `proofs/Reported.antt` that
//! the report over totals is the one over whole histories.
#![tactic(auto)]

mod device_session;
mod listed;
mod notes;
mod running;
mod show;
mod showing;
mod text;

pub use device_session::DeviceSession;
pub use notes::{LineNote, NotedLine, Notes};
pub use running::{run, run_between, run_session};
pub use show::{ShowFault, show_classes, show_filters, show_qdiscs};
pub use showing::put_show;
pub use text::put_device;
