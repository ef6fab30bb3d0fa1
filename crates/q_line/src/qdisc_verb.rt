/// What a line does with a qdisc (tc(8)).
#[derive(Clone, Copy)]
pub enum QdiscVerb {
    Add,
    Change,
    Del,
}
