ghost use Rattle.std.specs.Prelude.{◌≡◌};
ghost use Rattle.qtree_c.specs.device.Lines.{fault_of};

use q_line::LineFault;

/// A fault of a line: the index of its word, counted from 1, and its number, 1 to 6.
#[repr(C)]
#[derive(Clone, Copy, Drop)]
pub struct CFault {
    pub word: usize,
    pub number: u32,
}

impl CFault {
    /// This fault.
    pub fn of(fault: LineFault) -> CFault
        ensures { result ≡ fault_of fault }
    {
        CFault {
            word: fault.word(),
            number: fault.number() as u32,
        }
    }
}
