ghost use Rattle.std.specs.Prelude.{◌≡◌};
ghost use Rattle.q_script.specs.RunFault.{run_fault_of};

use crate::run_fault::RunFault;
use std::io::ErrorKind;

/// Why a script was not read whole.
#[derive(Clone, Copy, PartialEq, Eq, Debug)]
pub enum ScriptFault {
    /// A read failed in this way, or was interrupted once too often.
    Read(ErrorKind),
    /// There are more than 16,777,216 bytes.
    TooLong,
    /// An allocation failed.
    Memory,
}

impl From<ScriptFault> for RunFault {
    fn from(fault: ScriptFault) -> RunFault
        ensures { result ≡ run_fault_of fault }
    {
        match fault {
            ScriptFault::Read(kind) => RunFault::Read(kind),
            ScriptFault::TooLong => RunFault::TooLong,
            ScriptFault::Memory => RunFault::Memory,
        }
    }
}
