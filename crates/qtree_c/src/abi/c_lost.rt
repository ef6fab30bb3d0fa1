ghost use Rattle.std.specs.Prelude.{◌≡◌};
ghost use Rattle.qtree_c.specs.device.Turns.{lost_of};

use q_device::{Lost, ToldLoss};

/// What a program needs of a packet that was lost: whose bytes are free again, and the number of the cause.
#[repr(C)]
#[derive(Clone, Copy, Drop)]
pub struct CLost {
    pub number: u64,
    pub port: u32,
    pub buf: u32,
    pub cause: u32,
}

impl ToldLoss for CLost {
    ghost told = { lost_of };

    #[inline(always)]
    fn tell(lost: &Lost) -> CLost {
        CLost {
            number: lost.packet.number,
            port: lost.packet.port,
            buf: lost.packet.buf,
            cause: u32::from(lost.cause.number()),
        }
    }
}
