//! A packet goes out: nodes are asked for the next one, hold it, and give it.

pub(crate) mod dequeue;
pub(crate) mod giving;
pub(crate) mod held;
pub(crate) mod peek;
pub(crate) mod shown;
pub(crate) mod signals;
