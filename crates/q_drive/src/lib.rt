//! Drives a device from many threads: the work of `qtree drive`.
//!
//! - [`run_drive`] reads tc's lines, which set up a device, from any reader; lets a sender for each port offer its load on a thread
//!   of its own, and the drain take turns (`q_ports`); and writes what came of it to any writer. Its contract says what was
//!   written: what the lines came to, and then either that an allocation failed, or that so many packets were settled, that the
//!   device counts the same as arrived, and that the others of the loads were given up. Where that is asked for, the device is then
//!   polled at each time from which it is ready, until it never is again, and a line says what these polls sent.
//! - [`run_drive_between`] does the same from a `Source` to a `Target`, which keep how their reads and writes ended. Its contract
//!   says when each fault comes. [`run_drive_noting`] does so with `Notes` of the lines that were not done.
//! - [`DriveSettings`] are the options of a drive, in their ranges.
//!
//! ```
//! // Four senders of 16 packets of 100 bytes each, through rings of 16 places.
//! let settings = DriveSettings::new(RunSettings::defaults(), 4, 16, 100, 16, false, false)?;
//! let outcome = run_drive(&rt, alloc, &mut reader, &mut writer, settings)?;
//! ```
//!
//! `specs/SetUp.antt` says what a line of standard input does, `specs/Loads.antt` what is offered, `specs/Driven.antt` what the senders
//! come to, `specs/Drained.antt` what polls do that go on until no packet goes any more, and `specs/Reported.antt` what is written.
#![tactic(auto)]

mod draining;
mod driving;
mod ending;
mod loads;
mod pace;
mod run;
mod set_up;
mod set_up_line;
mod settings;

pub use run::{run_drive, run_drive_between, run_drive_noting};
pub use settings::DriveSettings;
