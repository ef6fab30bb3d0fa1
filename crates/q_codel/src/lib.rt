//! One queue of packets, and CoDel's law (RFC 8289, with the marks of RFC 3168) on any queue.
//!
//! - [`Fifo`] is a first-in first-out queue under a [`Limit`] in packets or in bytes. Only `reserve` allocates;
//!   `put`, `take` and `head` are O(1). Each contract says what the call does to the list of packets.
//!   `put_from` and `take_into` copy a packet once, from and to where the caller has it, in the form in which it is kept;
//!   `put_stored` and `take_stored` do so where that form is not known to be in range. `put_burst` and `take_burst` do so for many
//!   packets, and ask once a burst what each call asks; [`Told`] is what `take_burst` writes of each.
//! - [`Queue`] is what CoDel takes from. Its ghost members are the list of packets and a frame, `keeps`, which says what a
//!   take leaves alone: so a queue may be a view of a larger whole. [`Fifo`] is one.
//! - [`Sink`] is where lost packets go, in order. A caller needs to know nothing of it but its room. [`Losses`] is one that keeps each
//!   [`Loss`] until it is reaped.
//! - [`gap`] is the interval over the root of the count, exactly: its contract says so in two ways, as the greatest number
//!   that fits and as the definition's.
//! - [`ControlState`] is the state of one queue's CoDel, in 32 bytes, and [`Parameters`] are its settings, which many states
//!   may be lent. The contract of [`ControlState::take_into`] says what is sent and whether it is marked, what is
//!   lost, what stays in the queue and what the state becomes, each as a function of the queue, the state, the settings and
//!   the time. These functions (`specs/Codel.antt`) find by a least number how many first packets are dropped. A caller that takes most
//!   packets by itself asks [`ControlState::passed`] first, and leaves only the late ones to [`ControlState::take_late_into`].
//! - [`Codel`] is the two together, for one queue that has settings of its own.
//! - [`laws`] states what RFC 8289 promises, over those functions.
//!
//! ```
//! // A queue of 1000 packets under CoDel with its defaults: 5 ms of target, 100 ms of interval.
//! let mut queue = Fifo::new(alloc, Limit::Packets(1000));
//! let mut codel = Codel::new(5_000_000, 100_000_000, 1514, true);
//! queue.reserve()?;
//! queue.put(Stamped { packet, at: now });
//! while let Some(taken) = codel.take(&mut queue, later, &mut losses) {
//!     transmit(taken.packet);
//! }
//! ```
#![tactic(auto)]

mod cell;
mod codel;
mod control_law;
mod control_state;
mod fifo;
mod front;
pub mod laws;
mod limit;
mod loss;
mod losses;
mod parameters;
mod queue;
mod ring;
mod sink;
mod told;

pub use codel::{Codel, Taken};
pub use control_law::gap;
pub use control_state::{ControlState, Leaving};
pub use fifo::Fifo;
pub use front::Front;
pub use limit::Limit;
pub use loss::Loss;
pub use losses::Losses;
pub use parameters::Parameters;
pub use queue::Queue;
pub use sink::Sink;
pub use told::Told;
