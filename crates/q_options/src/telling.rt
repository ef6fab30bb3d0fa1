ghost use Rattle.std.specs.Prelude.{◌≡◌, ◌≤◌, ◌++◌, IfSome, List, ℕ, length, option_map};
ghost use Rattle.q_show.specs.Lengths.{GrowsBy, HasRoom};
ghost use Rattle.q_options.specs.Answer.{IsTold, IsToldOf, line_with, named};

use crate::fault::Fault;
use q_script::RunFault;
use q_show::{Text, write_whole};
use std::fmt::InlineText;
use std::io::{ErrorKind, Write};

/// The most bytes of the words for the kind of a fault.
const WORDS: usize = 64;

/// The most bytes of a file's path in a line.
const LONGEST_NAME: usize = 512;

/// Writes the line that reports a fault. An error of this writer is not reported.
pub fn tell<E: Write>(fault: Fault, errors: &mut E)
    ensures { IsTold fault (E.contents errors.old) (E.contents errors.new) }
{
    tell_of(None, fault, errors);
}

/// The same of a script, whose file it names where it has one.
pub fn tell_of<E: Write>(file: Option<&str>, fault: Fault, errors: &mut E)
    ensures { IsToldOf (option_map (λ path. path.now) file.entry) fault (E.contents errors.old) (E.contents errors.new) }
{
    let _ = write_whole(errors, line_of(file, fault).as_bytes());
}

/// The line: `qtree: `, the file, what could not be done, and the kind of the read or the write that failed.
fn line_of(file: Option<&str>, fault: Fault) -> Text
    ensures { (words : List ℕ) × (result ≡ line_with (named (option_map (λ path. path.now) file.entry)) fault words) }
{
    let mut line = Text::new();
    line.put(b"qtree: ");
    put_name(&mut line, file);
    line.put(fault.what().as_bytes());
    if let Some(kind) = fault.kind() {
        line.put(b": ");
        put_words(&mut line, fault, kind);
    }
    line.put(b"\n");
    line
}

/// The first bytes of a file's path.
fn put_name(line: &mut Text, file: Option<&str>)
    requires { HasRoom line.old 514 }
    ensures text { line.new ≡ line.old ++ named (option_map (λ path. path.now) file.entry) }
    ensures short { GrowsBy line.old line.new 514 }
{
    if let Some(path) = file {
        let path = path.as_bytes();
        line.put(&path[..path.len().min(LONGEST_NAME)]);
        line.put(b": ");
    }
}

/// The words for the kind of a fault: those for a standard input or output that is closed, or the system's, or else Rust's.
fn put_words(line: &mut Text, fault: Fault, kind: ErrorKind)
    requires { HasRoom line.old 64 }
    ensures text { (words : List ℕ) × (line.new ≡ line.old ++ words) }
    ensures short { GrowsBy line.old line.new 64 }
{
    match fault {
        Fault::Run(RunFault::Read(ErrorKind::NotConnected)) => line.put(
            b"standard input is closed",
        ),
        Fault::Run(RunFault::Write(ErrorKind::NotConnected))
        | Fault::Help(ErrorKind::NotConnected) => {
            line.put(b"standard output is closed");
        }
        _ => match system_words(kind) {
            Some(words) => line.put(words),
            None => line.put(InlineText::<WORDS>::of(kind).as_str().as_bytes()),
        },
    }
}

/// What strerror(3) of glibc says of the errors of this kind that a file or a stream can have.
fn system_words(kind: ErrorKind) -> Option<&'static [u8]>
    ensures { IfSome result (λ words. length words.now ≤ 64) }
{
    match kind {
        ErrorKind::NotFound => Some(b"No such file or directory"),
        ErrorKind::PermissionDenied => Some(b"Permission denied"),
        ErrorKind::IsADirectory => Some(b"Is a directory"),
        ErrorKind::NotADirectory => Some(b"Not a directory"),
        ErrorKind::FilesystemLoop => Some(b"Too many levels of symbolic links"),
        ErrorKind::InvalidFilename => Some(b"File name too long"),
        ErrorKind::StorageFull => Some(b"No space left on device"),
        ErrorKind::QuotaExceeded => Some(b"Disk quota exceeded"),
        ErrorKind::FileTooLarge => Some(b"File too large"),
        ErrorKind::BrokenPipe => Some(b"Broken pipe"),
        ErrorKind::Interrupted => Some(b"Interrupted system call"),
        ErrorKind::WouldBlock => Some(b"Resource temporarily unavailable"),
        _ => None,
    }
}
