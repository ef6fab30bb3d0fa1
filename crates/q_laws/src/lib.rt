//! What the classes, the flows and the customers of a device get: the laws of service, of work and of order, over every replay.
//!
//! - [`laws`] says what a class of a drr or a flow of an fq_codel gets whatever comes to the others, what a tbf at the root delivers in
//!   time, by when a packet has left and what leaves before it, that what `Device::service` of `q_device` answers is what the class gets,
//!   when a tree leaves no link idle and a prio its bands no packet, and that no flow is reordered.
//! - `specs/` has what they say: `Service` of bytes beside others, `Rate`, `InTime` and `Handed` of bytes in a time, `Delay` of the time for so
//!   many bytes, `Line`, `Turn` and `NewFlow` of the bytes before a packet in a fifo or first band, in a class of a drr and in a flow that
//!   joins an fq_codel, `MostOfTurn` of the most that those before a packet in a class can be, `FifoTurn` of those before a packet in a fifo
//!   that is a class, `Calm` of a class whose quantum stayed since it was last empty, `Delivered`, `Worst`, `TurnWorst` and `Latest` of the
//!   numbers that a device answers (which `q_device` defines),
//!   `Work`, `Order`, and `Rest` of what CoDel remembers of a flow that joins. An interval of a replay is defined in `q_model`
//!   (`specs/Stretches.antt`).
//!
//! There is no code here, and no crate uses this one: so a law can be added or changed without a proof of the crates that run. The
//! laws of `q_device` say that nothing is lost, how grants, deficits and levels of a class, a flow or a tbf add up, and what a device
//! tells of itself.
#![tactic(auto)]

pub mod laws;
pub mod memory;
