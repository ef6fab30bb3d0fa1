//! Tests of what the program is made of: what command lines ask for, worked scripts, lines on a device one after the other, random
//! packets as lines, show texts of a tree, and readers and writers that are slow or fail. A drive starts threads.
//!
//! They are here so that `q_session`, `q_drive` and `q_options` are proved once. What the built program answers to a command line is
//! tested by `crates/qtree/tests/run`, which needs no proof. The crate exports nothing.
#![tactic(auto)]

#[cfg(test)]
mod chance;
#[cfg(test)]
mod command_lines;
#[cfg(test)]
mod drives;
#[cfg(test)]
mod flow_scripts;
#[cfg(test)]
mod imports;
#[cfg(test)]
mod line_runner;
#[cfg(test)]
mod scripts_on_a_device;
#[cfg(test)]
mod seen;
#[cfg(test)]
mod shows;
#[cfg(test)]
mod spelled;
#[cfg(test)]
mod streams;
#[cfg(test)]
mod tree_scripts;
#[cfg(test)]
mod worked_scripts;
