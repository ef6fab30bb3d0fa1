ghost use Rattle.std.specs.Prelude.{◌≡◌};
ghost use Rattle.qtree_c.specs.abi.Structs.{count_of};

use q_device::Totals;

/// Packets, and their bytes together, as C has them.
#[repr(C)]
#[derive(Clone, Copy, Drop)]
pub struct CCount {
    pub packets: u64,
    pub bytes: u64,
}

impl CCount {
    /// These totals as C has them.
    pub fn of(totals: Totals) -> CCount
        ensures { result ≡ count_of totals }
    {
        CCount {
            packets: totals.packets,
            bytes: totals.bytes,
        }
    }
}
