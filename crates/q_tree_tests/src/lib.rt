//! Tests of trees and devices that need nothing private, and that no line of tc and no call of the crate for Rust can ask for. All others are in
//! `embed/rust/tests/tree`, and commands for which memory is refused are in `embed/c/refused.c`.
//!
//! - `device_commands`: `play`, which has no call in Rust or C, also where `rt try --fail-alloc` refuses memory; and a qdisc in place of the device
//!   itself, which no line names.
//! - `many_packets`: a play of more events than 16 bits count.
//! - `sharing`: plays whose sums are compared with quanta and deficits, and with a bucket's burst and rate.
//! - `tree_scripts`: scripts of calls on a tree without a device.
//! - `tree_calls`: the calls of a tree without a device, such as a peek or one for each kind of command; and commands that no line says.
//! - `device`: how a refusal is shown, with its number and its name. The crate for Rust shows a sentence instead.
//!
//! They are kept apart from `q_discipline_tests`, since one check that holds the modules of all libraries takes too much memory. The crate
//! exports nothing.
#![tactic(auto)]

#[cfg(test)]
mod device;
#[cfg(test)]
mod device_bench;
#[cfg(test)]
mod device_commands;
#[cfg(test)]
mod lines;
#[cfg(test)]
mod many_packets;
#[cfg(test)]
mod sharing;
#[cfg(test)]
mod tree_calls;
#[cfg(test)]
mod tree_scripts;
