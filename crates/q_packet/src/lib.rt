//! Packet descriptors: what the scheduler knows of a packet, and when.
//!
//! - [`Moment`] is a time in whole nanoseconds, 0 to 2^62.
//! - [`Packet`] is a `Copy` descriptor; payload bytes never enter. [`Stamped`] is a packet with the time of its arrival.
//! - [`FlowKey`] is what distinguishes flows, with its 38 bytes for a hash. [`Ecn`] is the packet's ECN codepoint.
//! - [`Cause`] says why a packet was lost.
//! - [`read_head`] reads a packet's key, priority and ECN codepoint from its first bytes, as a [`Head`], and [`mark_head`]
//!   writes Congestion Experienced into them. [`ip_at`] finds them in an Ethernet frame.
//! - [`FlowHash`] hashes keys to 32 bits. [`OneAtATime`] is [`one_at_a_time`] over a key's bytes.
//!
//! ```
//! // A frame that came in becomes a descriptor; one that is sent is marked where CoDel says so.
//! let head = read_head(ip_packet);
//! let hash = OneAtATime { seed }.hash(&head.key);
//! let packet = Packet::new(number, port, buf, len, head.key, hash, head.prio, head.ecn)?;
//! if sent.ecn == Ecn::Ce {
//!     mark_head(ip_packet);
//! }
//! ```
//!
//! What the contracts carry:
//!
//! - The constructors: a value is made exactly where each field is within its range, which the types keep from then on.
//! - [`read_head`]: for every byte string the result is `head` of it, which `specs/Head.antt` states by the places of the
//!   bytes in the RFCs' diagrams.
//! - [`ip_at`]: for every byte string the result is `ip_at` of it (`specs/Ethernet.antt`).
//! - [`mark_head`]: which bytes it writes (`specs/Marking.antt`), that the head is the same but for its codepoint, and that a
//!   right checksum stays right.
//! - [`FlowKey::bytes`]: the fields in order, and different keys have different bytes.
//! - [`one_at_a_time`] and each [`FlowHash`]: the result is the hash of the bytes as `specs/OneAtATime.antt` folds it, and
//!   equal keys hash equally.
//!
//! `specs/Totals.antt` counts and sizes lists of stamped packets, and `specs/Least.antt` has the least number at which a
//! test holds: the crates above state their rules in these words, and prove by `proofs/LeastLemmas.antt` and
//! `proofs/TotalsLemmas.antt`.
#![tactic(auto)]

mod cause;
mod ecn;
mod ethernet;
mod flow_hash;
mod flow_key;
mod head;
mod jenkins;
mod kept_packet;
mod marking;
mod moment;
mod packet;
mod stamped;
mod stored_packet;

pub use cause::Cause;
pub use ecn::Ecn;
pub use ethernet::ip_at;
pub use flow_hash::FlowHash;
pub use flow_key::FlowKey;
pub use head::{Head, read_head};
pub use jenkins::{OneAtATime, one_at_a_time};
pub use kept_packet::{KeptPacket, SOME_KEPT};
pub use marking::mark_head;
pub use moment::Moment;
pub use packet::{Packet, SOME_PACKET};
pub use stamped::Stamped;
pub use stored_packet::{SOME_STORED, StoredPacket};
