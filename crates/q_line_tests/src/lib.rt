//! Tests of what lines are read as, where no device and no report shows it: packets, frames, times, polls, and commands that every
//! device refuses. Faults are asked of the program (`qtree/tests`), and other commands of a device (`embed/rust/tests/read`).
//!
//! They need nothing private of `q_line`, and are kept apart from `q_discipline_tests`, since one check that holds the modules of all
//! libraries takes too much memory. The crate exports nothing.
#![tactic(auto)]

#[cfg(test)]
mod fault_texts;
#[cfg(test)]
mod frame_lines;
#[cfg(test)]
mod line_addresses;
#[cfg(test)]
mod line_fields;
#[cfg(test)]
mod line_reading;
