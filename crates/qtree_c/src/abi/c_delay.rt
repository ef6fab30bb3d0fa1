ghost use Rattle.std.specs.Prelude.{◌≡◌};
ghost use Rattle.qtree_c.specs.answers.Delays.{delay_told};

use q_device::Worst;

/// The longest that a packet waits in a fifo, as C has it. The greatest number stands for a time where no tbf is at the root.
#[repr(C)]
#[derive(Clone, Copy, Drop)]
pub struct CDelay {
    pub bytes: u64,
    pub ns: u64,
    pub late: u64,
}

impl CDelay {
    /// These numbers as C has them.
    pub fn of(worst: &Worst) -> CDelay
        ensures { result ≡ delay_told worst.now }
    {
        CDelay {
            bytes: worst.bytes,
            ns: worst.ns.unwrap_or(u64::MAX),
            late: worst.late.unwrap_or(u64::MAX),
        }
    }
}
