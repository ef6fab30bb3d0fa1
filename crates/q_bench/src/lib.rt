//! Workloads for the benchmark in `bench/`, which runs each of them beside the same work in plain Rust.
//!
//! Each exported function does one workload over inputs that the caller makes, inside the crates of this repository, and
//! answers a checksum of all that it was answered there. So a call costs nothing beside its work, and no work can be left
//! out. A checksum is 0 where the inputs are of no use or an allocation failed, and then the benchmark stops.
//!
//! - [`heads`]: reading heads and hashing their keys.
//! - [`queues`]: a fifo, and CoDel on one.
//! - [`flows`]: fq_codel, below its limit and at it.
//! - [`gaps`]: CoDel's control law.
//! - [`spends`]: a token bucket.
//! - [`turns`]: deficit round robin.
//! - [`lines`]: reading the lines of a script.
//! - [`devices`]: arrivals and polls of a device, over the trees of [`trees`] and [`pipes`], of [`packets`] that are made before.
//!
//! No contract says what a checksum is: the benchmark compares it with that of plain Rust. What is proved is that each
//! workload keeps to the contracts of what it calls, for all inputs.
#![tactic(auto)]

mod checksum;
mod devices;
mod flows;
mod gaps;
mod heads;
mod lines;
mod packets;
mod pipes;
mod queues;
mod spends;
mod trees;
mod turns;
