/// In which list a flow is (RFC 8290, section 4.2): in at most one.
#[derive(Clone, Copy, PartialEq, Eq, Debug)]
pub(crate) enum Place {
    /// In none.
    Unlisted,
    /// In the list of new flows.
    New,
    /// In the list of old flows.
    Old,
}
