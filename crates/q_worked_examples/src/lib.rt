//! Worked values and worked scripts, computed from the definitions alone.
//!
//! Each row is a theorem in `proofs/` that the prover finds by computing: what a definition gives for some numbers
//! (`*Values`), what the grammar gives for the bytes of a line (`Line*`), what the model of the device makes of a list of
//! events (`*Scripts`), or the bytes of the report that follow from the bytes of a script (`*Reports`). A change of a
//! definition that changes a rule breaks the rows that compute it. There is no code here, and no crate uses this one.
#![tactic(auto)]
