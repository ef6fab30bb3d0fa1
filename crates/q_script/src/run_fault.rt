ghost use Rattle.std.specs.Prelude.{◌≡◌};
ghost use Rattle.q_script.specs.RunFault.{fault_kind, fault_number, fault_text};

use std::io::ErrorKind;
use thiserror::Error;

/// Why a script was not run, or its report not written.
#[derive(Clone, Copy, PartialEq, Eq, Debug, Error)]
pub enum RunFault {
    /// The script could not be read: a read failed in this way, or was interrupted once too often. Nothing was written.
    #[error("the script cannot be read: {0}")]
    Read(ErrorKind),
    /// The script is longer than 16,777,216 bytes. Nothing was written.
    #[error("the script is longer than 16777216 bytes")]
    TooLong,
    /// The report could not be written: a write failed in this way (`WriteZero`: it took no byte), or was interrupted once
    /// too often. A front of the report may be written.
    #[error("the report cannot be written: {0}")]
    Write(ErrorKind),
    /// An allocation at the start failed. Nothing was written.
    #[error("memory is refused")]
    Memory,
}

impl RunFault {
    /// Its number.
    pub fn number(self) -> u8
        ensures { result ≡ fault_number self }
    {
        match self {
            RunFault::Read(_) => 1,
            RunFault::TooLong => 2,
            RunFault::Write(_) => 3,
            RunFault::Memory => 90,
        }
    }

    /// What could not be done, in words.
    pub fn what(self) -> &'static str
        ensures { result.now ≡ fault_text self }
    {
        match self {
            RunFault::Read(_) => "the script cannot be read",
            RunFault::TooLong => "the script is longer than 16777216 bytes",
            RunFault::Write(_) => "the report cannot be written",
            RunFault::Memory => "memory is refused",
        }
    }

    /// The kind of the read or the write that failed.
    pub fn kind(self) -> Option<ErrorKind>
        ensures { result ≡ fault_kind self }
    {
        match self {
            RunFault::Read(kind) | RunFault::Write(kind) => Some(kind),
            RunFault::TooLong | RunFault::Memory => None,
        }
    }
}
