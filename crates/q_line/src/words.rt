ghost use Rattle.std.specs.Prelude.{◌≡◌, ◌+◌, ◌^◌, ◌<◌, ◌≤◌, ℕ, suc, true, false, not, IsTrue, List, [], ◌∷◌, length, slice_index, Result, Option, Ok, Err, Some, None, IfOk, IfErr, MatchOption, if◌then◌else◌};
ghost use Rattle.std.specs.List.{position};
ghost use Rattle.std.specs.Option.{option_map_or};
ghost use Rattle.std.specs.Str.{is_utf8};
ghost use Rattle.q_words.specs.Words.{words_in, is_blank, is_blank_line};
ghost use Rattle.q_line.specs.Positions.{Position, whole};
ghost use Rattle.q_line.specs.Reading.{placed};
ghost use Rattle.q_line.specs.Grammar.{rest_of, late_fault, ends};

use crate::line::Line;
use q_words::{LineFault, Wrong, cut_word, skip_blanks, text};
use std::str::from_utf8;

/// The words of a line that are still to be read, from the left.
#[derive(Drop)]
pub struct Words<'a> {
    rest: &'a [u8],
    /// The same as text, if the whole line is UTF-8: no word of it has to be checked for that again.
    text: Option<&'a str>,
    taken: usize,
    ghost in_range: { taken + length rest.now < 2 ^ 63 },
    ghost same: { option_map_or (λ s. s.now) text rest.now ≡ rest.now },
}

impl<'a> Words<'a> {
    /// All words of a line.
    pub fn new(line: &'a [u8]) -> Words<'a>
        ensures all { words_in result.rest.now ≡ words_in line.now }
        ensures none_taken { result.taken ≡ 0 }
    {
        let text = match from_utf8(line) {
            Ok(text) => Some(text),
            Err(_) => None,
        };
        Words {
            rest: line,
            text,
            taken: 0,
        }
    }

    /// Whether the line says nothing: it has no words, or the first one begins with `#`.
    pub fn is_blank_line(&self) -> bool
        ensures { result ≡ is_blank_line (words_in self.now.rest.now) }
    {
        match skip_blanks(self.rest) {
            [] => true,
            [byte, ..] => *byte == b'#',
        }
    }

    /// The next word; `None` after the last. A word that is not UTF-8 is a fault.
    #[inline(always)]
    pub fn next(&mut self) -> Result<Option<&'a str>, LineFault>
        ensures ok { IfOk result (λ found. MatchOption found ((words_in self.old.rest.now ≡ []) × (self.new.taken ≡ self.old.taken))
            (λ word. (words_in self.old.rest.now ≡ word.now ∷ words_in self.new.rest.now)
            × (self.new.taken ≡ suc self.old.taken) × (is_utf8 word.now ≡ true))) }
        ensures err { IfErr result (λ fault. (position : Position)
            → rest_of position (suc self.old.taken) (words_in self.old.rest.now) ≡ Err fault) }
    {
        let Some(text) = self.text else {
            return self.next_of_bytes();
        };
        let word = self.next_of_text(text);
        Ok(if word.is_empty() { None } else { Some(word) })
    }

    /// The next word of a line that is UTF-8 as a whole; empty after the last.
    fn next_of_text(&mut self, text: &'a str) -> &'a str
        requires { text.now ≡ self.old.rest.now }
        ensures none { length result.now ≡ 0 → (words_in self.old.rest.now ≡ []) × (self.new.taken ≡ self.old.taken) }
        ensures some { 0 < length result.now → (words_in self.old.rest.now ≡ result.now ∷ words_in self.new.rest.now)
            × (self.new.taken ≡ suc self.old.taken) }
        ensures utf8 { is_utf8 result.now ≡ true }
    {
        let text = text::skip_blanks(text);
        if text.is_empty() {
            return text;
        }
        let (word, behind) = text::cut_word(text);
        self.rest = behind.as_bytes();
        self.text = Some(behind);
        self.taken += 1;
        word
    }

    /// The next word of a line that is not UTF-8 as a whole.
    #[cold]
    fn next_of_bytes(&mut self) -> Result<Option<&'a str>, LineFault>
        ensures ok { IfOk result (λ found. MatchOption found ((words_in self.old.rest.now ≡ []) × (self.new.taken ≡ self.old.taken))
            (λ word. (words_in self.old.rest.now ≡ word.now ∷ words_in self.new.rest.now)
            × (self.new.taken ≡ suc self.old.taken) × (is_utf8 word.now ≡ true))) }
        ensures err { IfErr result (λ fault. (position : Position)
            → rest_of position (suc self.old.taken) (words_in self.old.rest.now) ≡ Err fault) }
    {
        let rest = skip_blanks(self.rest);
        if rest.is_empty() {
            return Ok(None);
        }
        let (word, rest) = cut_word(rest);
        self.rest = rest;
        self.text = None;
        self.taken += 1;
        match from_utf8(word) {
            Ok(word) => Ok(Some(word)),
            Err(_) => Err(LineFault::BadUtf8(self.taken)),
        }
    }

    /// The next word, where the line needs one.
    #[inline(always)]
    pub fn needed(&mut self) -> Result<&'a str, LineFault>
        ensures ok { IfOk result (λ word. (words_in self.old.rest.now ≡ word.now ∷ words_in self.new.rest.now)
            × (self.new.taken ≡ suc self.old.taken) × (is_utf8 word.now ≡ true)) }
        ensures err { IfErr result (λ fault. (position : Position) → late_fault position ≡ None → ends position ≡ None
            → rest_of position (suc self.old.taken) (words_in self.old.rest.now) ≡ Err fault) }
    {
        match self.next()? {
            Some(word) => Ok(word),
            None => Err(self.missing()),
        }
    }

    /// The index of the word taken last.
    pub fn taken(&self) -> usize
        ensures value { result ≡ self.now.taken }
        ensures in_range { result < 2 ^ 63 }
    {
        self.taken
    }

    /// The fault of a line that needs a word beyond the last.
    pub fn missing(&self) -> LineFault
        ensures { result ≡ LineFault.Missing (suc self.now.taken) }
    {
        LineFault::Missing(self.taken + 1)
    }

    /// What was read of the word taken last; or its fault, with its index.
    pub fn placed<T>(&self, read: Result<T, Wrong>) -> Result<T, LineFault>
        ensures { result ≡ placed read self.now.taken }
    {
        match read {
            Ok(value) => Ok(value),
            Err(Wrong::UnknownWord) => Err(self.unknown()),
            Err(Wrong::BadNumber) => Err(LineFault::BadNumber(self.taken)),
            Err(Wrong::OutOfRange) => Err(LineFault::OutOfRange(self.taken)),
            Err(Wrong::Twice) => Err(LineFault::Twice(self.taken)),
            Err(Wrong::BadUtf8) => Err(LineFault::BadUtf8(self.taken)),
        }
    }

    /// The fault of the word taken last, where it fits nowhere.
    pub fn unknown(&self) -> LineFault
        ensures { result ≡ LineFault.UnknownWord self.now.taken }
    {
        LineFault::UnknownWord(self.taken)
    }

    /// The fault of the word taken last, where it is that of an option that was given before.
    pub fn twice(&self) -> LineFault
        ensures { result ≡ LineFault.Twice self.now.taken }
    {
        LineFault::Twice(self.taken)
    }

    /// The word taken last is that of an option, which may be given once.
    pub fn once(&self, given: bool) -> Result<(), LineFault>
        ensures { result ≡ (if given then Err (LineFault.Twice self.now.taken) else Ok tt) }
    {
        if given { Err(self.twice()) } else { Ok(()) }
    }

    /// The word behind an option, which may be given once.
    #[inline(always)]
    pub fn option(&mut self, given: bool) -> Result<&'a str, LineFault>
        ensures ok { IfOk result (λ word. (given ≡ false) × (words_in self.old.rest.now ≡ word.now ∷ words_in self.new.rest.now)
            × (self.new.taken ≡ suc self.old.taken) × (is_utf8 word.now ≡ true)) }
        ensures twice { IfErr result (λ fault. given ≡ true → fault ≡ LineFault.Twice self.old.taken) }
        ensures err { IfErr result (λ fault. given ≡ false → (position : Position) → late_fault position ≡ None → ends position ≡ None
            → rest_of position (suc self.old.taken) (words_in self.old.rest.now) ≡ Err fault) }
    {
        self.once(given)?;
        self.needed()
    }

    /// The line, where no word is left.
    #[inline(always)]
    pub fn ended(&mut self, line: Line) -> Result<Line, LineFault>
        ensures { result ≡ rest_of (whole line) (suc self.old.taken) (words_in self.old.rest.now) }
    {
        match self.next()? {
            None => Ok(line),
            Some(_) => Err(self.unknown()),
        }
    }
}
