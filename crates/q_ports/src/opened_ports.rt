use crate::booked::Booked;
use crate::drain::Drain;
use crate::gauge::Gauge;
use crate::port::Port;
use std::sync::ledger::Ledger;

/// A booked device, which is behind no lock yet, with its drain, ports and gauges.
///
/// It is not `Drop`, since the drain is not.
pub struct OpenedPorts<P: Ledger, B: Ledger> {
    pub booked: Booked<P, B>,
    pub drain: Drain<P, B>,
    pub ports: Vec<Port>,
    pub gauges: Vec<Gauge>,
}
