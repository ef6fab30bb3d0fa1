//! A packet comes in: the walk down its route to a queue, and back.

pub(crate) mod arrived;
pub(crate) mod enqueue;
pub(crate) mod keep;
pub(crate) mod outcome;
pub(crate) mod prepare;
