//! What a device answers of service, of the worst delay, and of the latest departure.

pub(crate) mod latest;
pub(crate) mod service;
pub(crate) mod worst;
