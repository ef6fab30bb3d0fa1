//! The recorder, the ring of the last events, and the play of a list of events.

pub mod last_events;
pub(crate) mod playing;
pub(crate) mod recording;
