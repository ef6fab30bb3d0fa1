/// The protocol of the packets that a filter tests (tc(8), `protocol`).
#[derive(Clone, Copy, PartialEq, Eq, Debug)]
pub enum Protocol {
    /// Every packet, also what is not IP.
    All,
    Ip,
    Ipv6,
}
