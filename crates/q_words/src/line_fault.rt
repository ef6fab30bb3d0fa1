ghost use Rattle.std.specs.Prelude.{◌≡◌};
ghost use Rattle.q_words.specs.FaultText.{fault_name, fault_number, fault_word};

use std::fmt;
use thiserror::Error;

/// Why a line is none of the language. Each fault has the index of its word, counted from 1.
#[derive(Clone, Copy, PartialEq, Eq, Debug, Error)]
pub enum LineFault {
    /// The word fits nowhere in such a line, or not here.
    UnknownWord(usize),
    /// A word that the line needs is not there; the index is one past the last word.
    Missing(usize),
    /// The word is not of the form that a number, handle or the like has here.
    BadNumber(usize),
    /// A number, handle or name outside its range.
    OutOfRange(usize),
    /// The word or option is in the line a second time.
    Twice(usize),
    /// The word is not UTF-8.
    BadUtf8(usize),
}

impl LineFault {
    /// Its number, as reports write it.
    pub fn number(self) -> u8
        ensures { result ≡ fault_number self }
    {
        match self {
            LineFault::UnknownWord(_) => 1,
            LineFault::Missing(_) => 2,
            LineFault::BadNumber(_) => 3,
            LineFault::OutOfRange(_) => 4,
            LineFault::Twice(_) => 5,
            LineFault::BadUtf8(_) => 6,
        }
    }

    /// Its name, as reports write it.
    pub fn name(self) -> &'static str
        ensures { result.now ≡ fault_name self }
    {
        match self {
            LineFault::UnknownWord(_) => "UnknownWord",
            LineFault::Missing(_) => "Missing",
            LineFault::BadNumber(_) => "BadNumber",
            LineFault::OutOfRange(_) => "OutOfRange",
            LineFault::Twice(_) => "Twice",
            LineFault::BadUtf8(_) => "BadUtf8",
        }
    }

    /// The index of its word, counted from 1.
    pub fn word(self) -> usize
        ensures { result ≡ fault_word self }
    {
        match self {
            LineFault::UnknownWord(word)
            | LineFault::Missing(word)
            | LineFault::BadNumber(word)
            | LineFault::OutOfRange(word)
            | LineFault::Twice(word)
            | LineFault::BadUtf8(word) => word,
        }
    }
}

impl fmt::Display for LineFault {
    ghost use Rattle.std.specs.Prelude.{Some};
    ghost use Rattle.q_words.specs.FaultText.{fault_text};

    ghost output = { λ fault. Some (fault_text fault) };

    fn fmt<W: fmt::Write>(&self, f: &mut fmt::Formatter<W>) -> fmt::Result {
        write!(
            f,
            "fault {} {} word {}",
            self.number(),
            self.name(),
            self.word()
        )
    }
}
