//! What a device answers of itself.

pub(crate) mod buffers;
pub(crate) mod counters;
pub(crate) mod lateness;
pub(crate) mod latest;
pub(crate) mod nodes;
pub(crate) mod oldest;
pub(crate) mod readiness;
pub(crate) mod service;
pub(crate) mod worst;
