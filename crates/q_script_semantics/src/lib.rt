//! The report of a whole script as a definition, ahead of the program that writes it.
//!
//! - `specs/Report.antt` has the text that each line of a script writes, over the model of the whole device (`q_device`) and
//!   the grammar of all lines (`q_line`); `specs/Text.antt` has the texts, but for those of show, which `q_show` has.
//! - [`laws`] says that a session whose nodes keep totals writes what one whose nodes keep whole histories writes, and that what
//!   show prints is read back as the command that makes it (`specs/ReadBack.antt`).
//!
//! No function writes a report here: `run` of `q_session` does, and its contract is stated over this one. Worked scripts with their
//! computed reports are in `q_worked_examples`.
#![tactic(auto)]

pub mod laws;
