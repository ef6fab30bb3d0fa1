use crate::trial::Undone;
use q_model::{Command, Refusal};

/// What setting up a device came to.
#[derive(Drop)]
pub struct Report {
    /// How many lines the file has, blank lines and comments too.
    pub lines: u64,
    /// The lines that are not done, in their order. Where there is one, nothing was done to the device.
    pub undone: Vec<Undone>,
    /// What was done to the device, in order.
    pub commands: Vec<Command>,
    /// Why the device refused the command after these, where it refused one: `Memory` if an allocation failed. No other was tried then.
    pub refusal: Option<Refusal>,
    /// Whether the device's tree is what the lines make of a new device, packets and counters aside.
    pub is_set_up: bool,
    /// How many qdiscs, classes and filters were added.
    pub added: u64,
    /// How many qdiscs and classes were changed.
    pub changed: u64,
    /// How many qdiscs and classes were deleted, and how many priorities of filters.
    pub deleted: u64,
}
