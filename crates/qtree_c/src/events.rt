//! The recorder and the ring of the last events, as lines of a script.

pub(crate) mod last_events;
pub(crate) mod noting;
pub(crate) mod recorder;
pub(crate) mod scripts;
