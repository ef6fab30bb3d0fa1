/// What a line does with filters (tc(8)).
#[derive(Clone, Copy)]
pub enum FilterVerb {
    Add,
    Del,
}
