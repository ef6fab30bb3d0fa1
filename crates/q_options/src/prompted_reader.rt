ghost use Rattle.std.specs.Prelude.{◌≡◌};

use q_show::write_whole;
use std::io::{Read, Result, Write};

/// What is written before a terminal is read.
const PROMPT: &[u8] =
    b"qtree: standard input is a terminal: it is read to its end (control-D) before a line is run\n";

/// Standard input, which says in one line on the error output before its first read that it is a terminal, where it is one.
#[derive(Drop)]
pub struct PromptedReader<R, E> {
    reader: R,
    errors: E,
    /// Whether the line is still to be written.
    is_due: bool,
}

impl<R, E> PromptedReader<R, E> {
    /// A reader of which no read was made, and the error output.
    pub fn new(reader: R, errors: E, is_terminal: bool) -> PromptedReader<R, E>
        ensures { result.reader ≡ reader }
    {
        PromptedReader {
            reader,
            errors,
            is_due: is_terminal,
        }
    }
}

impl<R, E: Write> PromptedReader<R, E> {
    /// Writes the line where it is still to be written. An error of the writer is not reported.
    fn prompt(&mut self)
        ensures { self.new.reader ≡ self.old.reader }
    {
        if self.is_due {
            self.is_due = false;
            let _ = write_whole(&mut self.errors, PROMPT);
        }
    }
}

impl<R: Read, E: Write> Read for PromptedReader<R, E> {
    ghost remaining = { λ s. R.remaining s.reader };

    fn read(&mut self, buf: &mut [u8]) -> Result<usize> {
        self.prompt();
        self.reader.read(buf)
    }
}
