ghost use Rattle.std.specs.Prelude.{◌+◌, ◌≤◌, length};

use crate::word::Word;
use q_words::{cut_word, skip_blanks};

/// The words of a line that are still to come, from the left.
#[derive(Clone, Copy)]
pub struct LineWords<'a> {
    rest: &'a [u8],
    len: usize,
    ghost within: { length rest.now ≤ len },
}

impl<'a> LineWords<'a> {
    /// All words of a line.
    pub fn new(line: &'a [u8]) -> LineWords<'a> {
        LineWords {
            rest: line,
            len: line.len(),
        }
    }
}

impl<'a> LineWords<'a> {
    /// The next word; `None` behind the last.
    pub fn next(&mut self) -> Option<Word<'a>> {
        let filled = skip_blanks(self.rest);
        if filled.is_empty() {
            self.rest = filled;
            return None;
        }
        let start = self.len - filled.len();
        let (bytes, behind) = cut_word(filled);
        self.rest = behind;
        Some(Word { start, bytes })
    }
}

/// The first word of a line; none behind its last byte where it has no word.
pub fn first_word(line: &[u8]) -> Word<'_> {
    LineWords::new(line).next().unwrap_or(behind(line))
}

/// No word, behind the last byte of a line.
pub fn behind(line: &[u8]) -> Word<'_> {
    let (line, bytes) = line.split_at(line.len());
    Word {
        start: line.len(),
        bytes,
    }
}
