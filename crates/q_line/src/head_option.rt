/// A part of a tc line's head that has a value (tc(8)).
#[derive(Clone, Copy)]
pub enum HeadOption {
    Dev,
    /// The class that a qdisc is in.
    InClass,
    Handle,
    /// The qdisc of a class or a filter.
    Parent,
    ClassId,
    Prio,
    Protocol,
}
