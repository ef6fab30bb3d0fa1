use crate::drain::Drain;
use crate::port::Port;
use std::sync::ledger::Ledger;

/// A drain that did not settle, with all its ports. What was taken in stays taken in, and [`Drain::settle`] may be called again.
pub struct Unsettled<P: Ledger, B: Ledger> {
    pub drain: Drain<P, B>,
    pub ports: Vec<Port>,
}
