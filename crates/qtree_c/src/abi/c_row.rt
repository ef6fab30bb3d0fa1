ghost use Rattle.std.specs.Prelude.{◌≡◌};
ghost use Rattle.qtree_c.specs.abi.Structs.{row_of};

use crate::abi::c_count::CCount;
use q_device::Row;

/// What a node counted, as C has it.
#[repr(C)]
#[derive(Clone, Copy, Drop)]
pub struct CRow {
    pub arrived: CCount,
    pub sent: CCount,
    pub refused: CCount,
    pub dropped: CCount,
    pub queued: CCount,
    pub marked: CCount,
}

impl CRow {
    /// This row as C has it.
    pub fn of(row: &Row) -> CRow
        ensures { result ≡ row_of row.now }
    {
        CRow {
            arrived: CCount::of(row.arrived),
            sent: CCount::of(row.sent),
            refused: CCount::of(row.refused),
            dropped: CCount::of(row.dropped),
            queued: CCount::of(row.queued),
            marked: CCount::of(row.marked),
        }
    }
}
