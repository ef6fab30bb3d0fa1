ghost use Rattle.std.specs.Prelude.{◌≡◌};
ghost use Rattle.q_drive.specs.SetUp.{narrowed, said};

use q_device::Command;
use q_line::{Line, Show, read_line};
use q_words::{LineFault, cut_word, skip_blanks};
use std::str::from_utf8;

/// What a line of standard input says before the senders run.
#[derive(Clone, Copy, PartialEq, Eq, Debug)]
pub enum SetUpLine {
    /// Nothing: it has no words, or is a comment.
    Blank,
    /// A change of the tree.
    Tc(Command),
    /// What is shown of the tree.
    Show(Show),
}

/// Reads a line, without its newline. A first word other than `tc` is unknown.
pub fn read_set_up_line(line: &[u8]) -> Result<SetUpLine, LineFault>
    ensures { result ≡ said line.now }
{
    let words = skip_blanks(line);
    if words.is_empty() {
        return Ok(SetUpLine::Blank);
    }
    let (first, _behind) = cut_word(words);
    if first.starts_with(b"#") {
        return Ok(SetUpLine::Blank);
    }
    match from_utf8(first) {
        Ok("tc") => narrowed(read_line(line)?),
        Ok(_) => Err(LineFault::UnknownWord(1)),
        Err(_) => Err(LineFault::BadUtf8(1)),
    }
}

/// A line of tc's, and no other.
fn narrowed(line: Line) -> Result<SetUpLine, LineFault>
    ensures { result ≡ narrowed line }
{
    match line {
        Line::Blank => Ok(SetUpLine::Blank),
        Line::Tc(command) => Ok(SetUpLine::Tc(command)),
        Line::Show(show) => Ok(SetUpLine::Show(show)),
        _ => Err(LineFault::UnknownWord(1)),
    }
}
