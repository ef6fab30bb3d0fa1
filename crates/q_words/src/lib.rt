//! The words of a line, and the values that a word can be.
//!
//! - [`skip_blanks`] and [`cut_word`] cut a line into words, and those of [`text`] a line that is UTF-8.
//! - [`number`], [`handle`], [`class`] and [`name`] read the numbers and names of tc's lines.
//! - [`Wrong`] says what is wrong with a word by itself, [`LineFault`] the same of a line, with the index of the word; its
//!   text is `fault 3 BadNumber word 9` and the like.
//!
//! ```
//! let rate = read_rate(b"1.5mbps");            // Ok(12_000_000), in bits a second
//! let class = class(b"1:1f");                  // the class of major 1 and minor 31
//! let wrong = number(b"1k", 0, 1000);          // Err(Wrong::BadNumber): a number has no suffix
//! ```
//!
//! Each reader takes the bytes of one word and returns exactly what its definition in `specs/` says: `Words` has how a line is
//! cut, `Values` numbers, handles and names, `Units` numbers with a unit, `Addresses` the rest. None allocates.
#![tactic(auto)]

mod addresses;
mod classes;
mod cutting;
mod decimals;
mod frames;
mod ip_address;
mod ipv4;
mod ipv6;
mod line_fault;
mod parts;
mod prefixes;
mod protocols;
pub mod text;
mod units;
mod values;
mod wrong;

pub use addresses::address;
pub use classes::class;
pub use cutting::{cut_word, skip_blanks};
pub use frames::frame_head;
pub use ip_address::IpAddress;
pub use line_fault::LineFault;
pub use prefixes::prefix;
pub use protocols::{ip_proto, protocol};
pub use units::{read_rate, read_size, read_time, size_within, time_within};
pub use values::{handle, name, number, numeral};
pub use wrong::Wrong;
