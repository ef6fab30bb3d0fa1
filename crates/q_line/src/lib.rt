//! The lines of the script language: their grammar, as definitions, and a reader that follows it.
//!
//! - [`read_line`] reads a line as the grammar says, and allocates nothing. It returns a [`Line`], or the leftmost fault. A [`Command`] and its
//!   settings are those of `q_model`.
//! - `specs/Grammar.antt` is the grammar: for the bytes of every line it says which [`Line`] they are, or which `LineFault` of `q_words` is the
//!   leftmost. Its tables of words are in `specs/Positions.antt`, what the words so far have said is in `specs/Drafts.antt`, and the words and
//!   values are in `q_words`.
//! - `specs/Ranges.antt` says what a line may say, and `specs/Spelling.antt` has one way to write each such line. [`laws`] says that each of these
//!   lines is read as itself, and where the fault of any other line is. By `proofs/PacketRanges.antt`, each packet that is read has a length of 1
//!   to 65535 bytes and a priority of 0 to 15.
//!
//! ```
//! match read_line(b"tc qdisc add dev eth0 root handle 1: drr") {
//!     Ok(Line::Tc(command)) => device.command(command, now)?,
//!     Ok(_) => {}                              // a packet, a poll, a show line, a comment ..
//!     Err(fault) => report(fault.number(), fault.word()),    // 1 to 6, and the word, counted from 1
//! }
//! ```
//!
//! `q_script_semantics` computes worked scripts from these definitions, from their bytes to their reports.
#![tactic(auto)]

mod arrival;
mod bfifo;
mod class_head;
mod class_verb;
mod drr;
mod filter_head;
mod filter_verb;
mod flower;
mod fq_codel;
mod fq_codel_option;
mod fq_codel_word;
mod frame;
mod head_draft;
mod head_option;
mod key_draft;
mod key_name;
mod kind_name;
pub mod laws;
mod line;
mod object;
mod packet;
mod packet_draft;
mod packet_field;
mod pfifo;
mod prio;
mod prio_made;
mod priomap;
mod qdisc_head;
mod qdisc_made;
mod qdisc_verb;
mod reading;
mod show;
mod tbf;
mod tbf_draft;
mod tbf_option;
mod tc;
mod words;

pub use arrival::Arrival;
pub use line::Line;
pub use object::Object;
pub use q_model::{
    Burst, ClassId, Command, Filter, FilterKeys, FilterPrio, FqCodelOptions, Handle, IpPrefix,
    IpVersion, Kind, Latency, Minor, Place, PrioOptions, Protocol, Quantum, Rate, TbfLimit,
};
pub use q_words::{LineFault, Wrong, read_rate, read_size, read_time, size_within, time_within};
pub use reading::read_line;
pub use show::Show;
