use q_device::{Device, LastEvents};

/// What is at the address in an open place: a device, and the ring of its last events where the program asked for one.
#[derive(Drop)]
pub struct Opened {
    pub device: Device,
    pub last: Option<LastEvents>,
}
