//! Why a line of a script was not done, or what it does that its writer may not want, in words for its writer.
//!
//! - [`explain_fault`] is the line, a mark under the word that has the fault, and a sentence that says what may be there or what is
//!   missing; [`explain_refusal`] the same of a command that was refused, with what to do; [`explain_remark`] the same of a line that
//!   was done and of which there is a [`Remark`]; [`explain_other`] the same of a line that is no command, with the caller's sentence.
//!
//! ```
//! if let Err(fault) = read_line(line) {
//!     let text = explain_fault(alloc, number, line, fault)?;     // three lines
//! }
//! ```
//!
//! The words that may be at a place are in the tables of `tables`, after the grammar of `q_line`. A text has no
//! contract: it is for people, and only tests check it. No control character of a script is written raw.
#![tactic(auto)]

mod cut;
mod draft;
mod explaining;
mod fault_sentence;
mod line_words;
mod marked;
mod missing;
mod near;
mod quoting;
mod refusal_sentence;
mod refused_word;
mod remark;
mod spot;
mod table_entry;
mod tables;
mod tc_only;
mod value;
mod word;
mod word_place;

pub use explaining::{explain_fault, explain_other, explain_refusal, explain_remark};
pub use remark::Remark;
