/// The settings of a device, as C has them.
#[repr(C)]
#[derive(Clone, Copy, Drop)]
pub struct CSettings {
    /// The packets that a pfifo without a limit holds.
    pub txqueuelen: u32,
    /// How many events are kept, at most 1,000,000.
    pub recorder: u32,
    /// The longest packet that is taken, in bytes, 1 to 65535.
    pub mtu: u16,
}
