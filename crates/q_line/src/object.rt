/// What a tc line is about (tc(8)).
#[derive(Clone, Copy, PartialEq, Eq, Debug)]
pub enum Object {
    Qdisc,
    Class,
    Filter,
}
