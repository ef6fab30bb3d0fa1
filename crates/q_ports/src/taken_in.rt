/// What [`Outlet::take_in`](crate::Outlet::take_in) did.
#[derive(Clone, Copy, PartialEq, Eq, Debug)]
pub struct TakenIn {
    /// How many packets arrived and left the ring.
    pub taken: usize,
    /// Whether an allocation failed, which ended the call.
    pub memory: bool,
}
