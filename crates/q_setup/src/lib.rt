//! Sets up a device by a file of tc lines, also while it runs: what is there already with the same words is left, what differs is changed,
//! what is gone is deleted, and packets stay where they can.
//!
//! - [`set_up`] reads the file, tries its lines on a new device, and does to the device the commands that make its tree the same. Its
//!   contract says which lines are not done, and that the device is then as it was; that else the device is what the commands of the
//!   report make of it by the model, each of which was accepted; and that its tree is then what the lines make of a new device, unless
//!   an allocation failed, which the report tells.
//! - A [`Report`] has the lines that are not done, each an [`Undone`] with the reason [`Why`], and the commands that were done.
//!
//! ```
//! let report = set_up(alloc, &mut device, &text, now)?;
//! for undone in &report.undone {
//!     tell(undone.line, undone.why);           // nothing was done
//! }
//! ```
//!
//! `specs/Tried.antt` says what the lines make of a new device, `specs/Done.antt` what commands in turn make of a device, and
//! `specs/Alike.antt` when two trees are the same. Which commands are planned is no part of the contract: whether they came to the tree
//! that the lines say is compared afterwards. Where they did not, the tree is emptied and the lines are done as they stand
//! (`specs/Anew.antt`), which is proved to come to it.
#![tactic(auto)]

mod adding;
mod alike;
mod carrying_out;
mod counting;
mod doing;
mod effect;
mod kinds;
mod naming;
mod pair;
mod planning;
mod rebuilding;
mod report;
mod seen;
mod setting_up;
mod trial;

pub use report::Report;
pub use setting_up::set_up;
pub use trial::{Undone, Why};
