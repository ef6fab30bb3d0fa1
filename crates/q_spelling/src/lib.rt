//! Lines as they are written: one text for each command, packet and poll, and the script that plays events again.
//!
//! - [`command_text`] is the line of tc that a command is, and [`arrival_text`] the `pkt` line of a packet; [`event_text`] is the line
//!   of an event. None of them allocates.
//! - [`script_of`] is the script of events, as a device recorded them: `qtree play` does with it what the device did.
//! - [`laws`] says that such a line is read as what was written.
//!
//! ```
//! // The script of what a device recorded, which `qtree play` reads.
//! let script = script_of(alloc, device.recorded())?;
//! ```
//!
//! `specs/Events.antt` says which line an event is; the words of each line are those of `q_line`'s `specs/Spelling.antt`.
#![tactic(auto)]

mod addresses;
mod arrivals;
mod commands;
mod events;
mod filters;
mod kinds;
pub mod laws;
mod options;

pub use arrivals::arrival_text;
pub use commands::command_text;
pub use events::{event_line, event_text, script_of};
