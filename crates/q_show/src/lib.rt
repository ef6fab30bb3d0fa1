//! What `tc qdisc show`, `tc class show` and `tc filter show` print of one node, class or filter, and whole writes to any writer.
//!
//! - [`qdisc_text`] is a node with its settings, and its counters where they are asked for, [`class_text`] a class and
//!   [`filter_text`] a filter; [`counters_text`] is what a node has counted. Each takes a view of `q_model`, and returns a
//!   [`Text`], which allocates nothing.
//! - [`write_whole`] writes bytes to any writer, and [`Target`] does so time after time to one writer, and keeps how the
//!   writes ended: none is made after one that failed. [`Hexadecimal`] is a number's digits. `q_script` writes its reports by
//!   them.
//!
//! ```
//! // Each qdisc with its counters, as `tc -s qdisc show` prints it.
//! let text = qdisc_text(&node, true);
//! write_whole(&mut writer, text.as_bytes())?;
//! ```
//!
//! - `specs/ShowText.antt` has the texts, and `specs/Writes.antt` how writes end. A write appends exactly its bytes, or stops
//!   at the writer's failure with a front of them written.
#![tactic(auto)]

mod address;
mod class;
mod filter;
mod hexadecimal;
mod qdisc;
mod showing;
mod target;
mod text;
mod write_fault;

pub use address::put_address;
pub use hexadecimal::Hexadecimal;
pub use showing::{class_text, counters_text, filter_text, qdisc_text};
pub use target::{Target, Writes};
pub use text::Text;
pub use write_fault::{WriteFault, write_whole};
