//! A token bucket, exact at every rate: what paces the tbf discipline of tc-tbf(8).
//!
//! - [`Bucket::new`] makes a full bucket, of a rate in bits a second and a burst in bytes.
//! - [`Bucket::spend`] lets a packet go and takes its length, or changes nothing. [`Bucket::level_at`] is the level that it
//!   reads.
//! - [`Bucket::ready_at`] is the earliest time at which a packet may go, if there is one.
//! - [`Bucket::change`] gives the bucket another rate and burst. [`Bucket::rate`] and [`Bucket::burst`] read them.
//!
//! ```
//! // 8 Mbit/s and a burst of 2000 bytes: the first packet goes at once, the second after the bytes that it lacks.
//! let mut bucket = Bucket::new(8_000_000, 2000, now);
//! if !bucket.spend(now, 1500) {
//!     let then = bucket.ready_at(1500);
//! }
//! ```
//!
//! A contract sees a bucket as the record `TokenBucket` of `specs/Level.antt`: its rate, its burst, and the level that it had
//! at the time of the last true spend, of the last change or of its making, whichever came last. That file says what the
//! level is at a later time, which lengths it allows, and what a spend and a change leave; the contracts of `level_at`,
//! `spend`, `ready_at` and `change` are these definitions. Levels are whole numbers of units of 1/(8*10^9) byte, so that one
//! bit a second brings one unit in each nanosecond, and nothing is ever rounded.
//!
//! [`laws`] says of the same definitions what holds over every list of spends: in any interval no more bytes go than
//! the burst and what the rate brings in that interval. No call allocates.
#![tactic(auto)]

mod bucket;
pub mod laws;

pub use bucket::Bucket;
