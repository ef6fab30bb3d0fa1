//! Worked replays at which the premises of the laws hold, and with them what the laws say.
//!
//! A law whose premises contradict each other would be true, and would say nothing. So laws of `q_laws`, and laws of sharing of `q_device`, have an
//! example here, those of a class of a drr excepted: a list of events, small enough that the prover computes the device after each of them
//! (`specs/Replays.antt`), with all premises of the law and its conclusion stated of that list (the other files of `specs/`). In `proofs/` each
//! premise is computed, mostly by a test of every state, and the conclusion is the law, applied to the premises.
//!
//! There is no code here, and no crate uses this one.
#![tactic(auto)]

pub mod examples;
