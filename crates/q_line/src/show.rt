use crate::object::Object;

/// A line that asks for the text of what is there (tc(8), `show`).
#[derive(Clone, Copy, PartialEq, Eq, Debug)]
pub struct Show {
    /// What the text shows.
    pub object: Object,
    /// Whether the line has `-s`. Then each qdisc is followed by its counters; classes and filters have none.
    pub counters: bool,
}
