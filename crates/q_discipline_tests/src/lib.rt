//! Tests that need nothing private of the crates below: a module for each crate or topic.
//!
//! They are here so that those crates are proved once. A crate with tests of its own is proved a second time with them.
//! The crate exports nothing. Scripts with their reports are data and not code: `tools/disagree` plays them.
#![tactic(auto)]

#[cfg(test)]
mod bucket;
#[cfg(test)]
mod codel;
#[cfg(test)]
mod drr;
#[cfg(test)]
mod fifo;
#[cfg(test)]
mod fnv;
#[cfg(test)]
mod fq_codel;
#[cfg(test)]
mod fq_codel_calls;
#[cfg(test)]
mod packet;
#[cfg(test)]
mod plain_fq_codel;
#[cfg(test)]
mod show;
#[cfg(test)]
mod twins;
#[cfg(test)]
mod units;
#[cfg(test)]
mod words;
