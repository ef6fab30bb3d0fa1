/// A class, by the kind of its qdisc.
#[derive(Clone, Copy, PartialEq, Eq, Debug)]
pub enum ClassKind {
    Prio,
    Tbf,
    Drr {
        /// The bytes of each grant.
        quantum: u32,
        /// The bytes that it may send before the next grant; `None` where the class is not active.
        deficit: Option<u64>,
    },
}
