ghost use Rattle.std.specs.Prelude.{◌≡◌};
ghost use Rattle.qtree_c.specs.device.SettingUp.{no_fault, undone_of};

use crate::abi::c_fault::CFault;
use crate::abi::codes::{FAULTY, NO_COMMAND};
use q_setup::{Undone, Why};

/// A line of a file that is not done, as C has it: its number from 1, and what `qtree_command` would answer on it.
#[repr(C)]
#[derive(Clone, Copy, Drop)]
pub struct CUndone {
    pub fault: CFault,
    pub line: u64,
    pub code: u32,
}

impl CUndone {
    /// This line.
    pub fn of(undone: &Undone) -> CUndone
        ensures { result ≡ undone_of undone.now }
    {
        let line = undone.line;
        match undone.why {
            Why::Fault(fault) => CUndone {
                fault: CFault::of(fault),
                line,
                code: FAULTY,
            },
            Why::Refusal(refusal) => CUndone {
                fault: no_fault(),
                line,
                code: refusal.number() as u32,
            },
            Why::NoCommand => CUndone {
                fault: no_fault(),
                line,
                code: NO_COMMAND,
            },
        }
    }
}

fn no_fault() -> CFault
    ensures { result ≡ no_fault }
{
    CFault { word: 0, number: 0 }
}
