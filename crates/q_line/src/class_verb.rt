/// What a line does with a class (tc(8)).
#[derive(Clone, Copy)]
pub enum ClassVerb {
    Add,
    Change,
    Del,
}
