ghost use Rattle.std.specs.Prelude.{◌≡◌};
ghost use Rattle.qtree_c.specs.abi.Structs.{loss_of};

use q_device::Lost;
use q_packet::StoredPacket;

/// A packet that was lost, and the number of the cause, as C has them.
#[repr(C)]
#[derive(Clone, Copy, Drop)]
pub struct CLoss {
    pub packet: StoredPacket,
    pub cause: u32,
}

impl CLoss {
    /// This loss as C has it.
    pub fn of(lost: &Lost) -> CLoss
        ensures { result ≡ loss_of lost.now }
    {
        CLoss {
            packet: StoredPacket::of(&lost.packet),
            cause: lost.cause.number() as u32,
        }
    }
}
