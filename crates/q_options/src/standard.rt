ghost use Rattle.std.specs.Prelude.{◌≡◌};

use std::io::{Error, ErrorKind, Read, Result, Write};

/// Linux's number of the error of a descriptor that is not open.
const EBADF: i32 = 9;

/// Standard input or standard output. `ErrorKind` has no kind for one that is closed: it is reported as `NotConnected`.
#[derive(Drop)]
pub struct Standard<T> {
    stream: T,
}

impl<T> Standard<T> {
    /// A stream that the program was started with.
    pub fn new(stream: T) -> Standard<T>
        ensures { result.stream ≡ stream }
    {
        Standard { stream }
    }
}

impl<R: Read> Read for Standard<R> {
    ghost remaining = { λ s. R.remaining s.stream };

    fn read(&mut self, buf: &mut [u8]) -> Result<usize> {
        match self.stream.read(buf) {
            Ok(n) => Ok(n),
            Err(error) => Err(named(error)),
        }
    }
}

impl<W: Write> Write for Standard<W> {
    ghost contents = { λ s. W.contents s.stream };

    fn write(&mut self, buf: &[u8]) -> Result<usize> {
        match self.stream.write(buf) {
            Ok(n) => Ok(n),
            Err(error) => Err(named(error)),
        }
    }

    fn flush(&mut self) -> Result<()> {
        match self.stream.flush() {
            Ok(()) => Ok(()),
            Err(error) => Err(named(error)),
        }
    }
}

/// The error, with the kind of a closed stream where it is that of one.
fn named(error: Error) -> Error {
    match error.raw_os_error() {
        Some(EBADF) => Error::from(ErrorKind::NotConnected),
        _ => error,
    }
}
