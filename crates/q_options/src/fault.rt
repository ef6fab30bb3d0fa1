ghost use Rattle.std.specs.Prelude.{◌≡◌, ◌≢◌};
ghost use Rattle.q_options.specs.Answer.{kind_of, text_of};

use q_script::RunFault;
use std::io::ErrorKind;

/// Why nothing was run, or the report was not written.
#[derive(Clone, Copy, PartialEq, Eq, Debug)]
pub enum Fault {
    /// An argument is not UTF-8.
    Argument,
    /// The help or the version that was asked for cannot be written.
    Help(ErrorKind),
    /// The script was not run, or its report not written.
    Run(RunFault),
}

impl Fault {
    /// What it is that the words of a command line cannot be had: one that is not UTF-8, or no memory for them.
    pub fn of_words(kind: ErrorKind) -> Fault
        ensures utf8 { kind ≡ ErrorKind.InvalidData → result ≡ Fault.Argument }
        ensures memory { kind ≢ ErrorKind.InvalidData → result ≡ Fault.Run RunFault.Memory }
    {
        match kind {
            ErrorKind::InvalidData => Fault::Argument,
            _ => Fault::Run(RunFault::Memory),
        }
    }

    /// What could not be done, in words.
    pub fn what(self) -> &'static str
        ensures { result.now ≡ text_of self }
    {
        match self {
            Fault::Argument => "an argument is not UTF-8",
            Fault::Help(_) => "help cannot be written",
            Fault::Run(fault) => fault.what(),
        }
    }

    /// The kind of the read or the write that failed.
    pub fn kind(self) -> Option<ErrorKind>
        ensures { result ≡ kind_of self }
    {
        match self {
            Fault::Argument => None,
            Fault::Help(kind) => Some(kind),
            Fault::Run(fault) => fault.kind(),
        }
    }
}
