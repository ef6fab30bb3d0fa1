/// Packets, and their bytes together.
#[derive(Clone, Copy, PartialEq, Eq, Debug)]
pub struct Totals {
    pub packets: u64,
    pub bytes: u64,
}
