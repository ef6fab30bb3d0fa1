ghost use Rattle.std.specs.Prelude.{◌≡◌};

use q_device::Refusal;
use q_words::{LineFault, cut_word, skip_blanks};
use std::alloc::{AllocError, Global};
use std::marker::Model;

/// What is noted of a line.
#[derive(Clone, Copy, PartialEq, Eq, Debug)]
pub enum LineNote {
    /// It was not done, since it cannot be read.
    Fault(LineFault),
    /// It was not done: its command was refused, or the allocation for its packet failed.
    Refusal(Refusal),
    /// It was done, and gives a tbf a burst of fewer bytes than the device's mtu, which is this.
    SmallBurst { mtu: u16 },
    /// It was done, and names another device than a line before it.
    OtherDevice,
}

/// A line that was not done, or of which something else is noted.
#[derive(Debug, Drop)]
pub struct NotedLine {
    /// Its number, counted from 1.
    pub number: u64,
    /// Its bytes, without its newline.
    pub text: Vec<u8>,
    /// What is noted of it.
    pub note: LineNote,
}

/// What is noted of the lines of a script, in their order: how many were not done, and, where lines are kept, each of these and each
/// that does what its writer may not want. A contract sees that number alone: the lines are for people.
#[derive(Drop)]
pub struct Notes {
    alloc: Global,
    /// Whether lines are kept.
    keeps: bool,
    lines: Vec<NotedLine>,
    missed: u64,
    /// How many lines were not done, as the session says that hands the notes over.
    not_done: u64,
    /// The name of the device in the first line that was read and has one.
    device: Vec<u8>,
}

impl Model for Notes {
    ghost use Rattle.std.specs.Prelude.{ℕ};
    ghost use Rattle.std.specs.Coded.{coded_ℕ};

    ghost Value = { ℕ };

    ghost coded = { coded_ℕ };

    ghost view = { λ notes. notes.not_done };
}

impl Notes {
    /// Notes that have the number of the lines that were not done, and keep none.
    pub fn counting(alloc: Global) -> Notes
        ensures { result ≡ 0 }
    {
        Notes {
            alloc,
            keeps: false,
            lines: Vec::new(alloc),
            missed: 0,
            not_done: 0,
            device: Vec::new(alloc),
        }
    }

    /// Notes that keep lines too.
    pub fn keeping(alloc: Global) -> Notes
        ensures { result ≡ 0 }
    {
        let mut notes = Notes::counting(alloc);
        notes.keeps = true;
        notes
    }

    /// Whether lines are kept.
    pub fn keeps(&self) -> bool {
        self.keeps
    }

    /// The lines that were kept.
    pub fn lines(&self) -> &[NotedLine] {
        &self.lines
    }

    /// How many lines were not kept, since the allocation for them failed.
    pub fn missed(&self) -> u64 {
        self.missed
    }

    /// How many lines were not done.
    pub fn not_done(&self) -> u64
        ensures { result ≡ self.now }
    {
        self.not_done
    }

    /// Takes down how many lines were not done.
    pub fn set_not_done(&mut self, lines: u64)
        ensures { self.new ≡ lines }
    {
        self.not_done = lines;
    }

    /// Keeps a line, where lines are kept and there is memory.
    pub fn add(&mut self, number: u64, line: &[u8], note: LineNote)
        ensures { self.new ≡ self.old }
    {
        if self.keeps && self.keep(number, line, note).is_err() {
            self.missed = self.missed.saturating_add(1);
        }
    }

    /// Checks the name of the device in a line that was done, where lines are kept, and keeps a line that has another one than the
    /// first.
    pub fn look_at_device(&mut self, number: u64, line: &[u8])
        ensures { self.new ≡ self.old }
    {
        if !self.keeps {
            return;
        }
        let Some(name) = named_device(line) else {
            return;
        };
        if self.device.as_slice() == name {
            return;
        }
        if self.device.is_empty() {
            if self.device.extend_from_slice(name).is_err() {
                self.missed = self.missed.saturating_add(1);
            }
            return;
        }
        self.add(number, line, LineNote::OtherDevice);
    }

    /// Keeps a line.
    fn keep(&mut self, number: u64, line: &[u8], note: LineNote) -> Result<(), AllocError>
        ensures { self.new ≡ self.old }
    {
        let text = Vec::from_slice(self.alloc, line)?;
        self.lines.push(NotedLine { number, text, note })?;
        Ok(())
    }
}

/// The name of the device in a line without a fault: the word behind the first `dev`, which is no value of a word before it. A comment
/// names none.
fn named_device(line: &[u8]) -> Option<&[u8]> {
    if is_comment(line) {
        return None;
    }
    let mut rest = line;
    let mut is_named = false;
    for _ in 0..line.len() {
        let filled = skip_blanks(rest);
        if filled.is_empty() {
            return None;
        }
        let (word, behind) = cut_word(filled);
        if is_named {
            return Some(word);
        }
        is_named = word == "dev".as_bytes();
        rest = behind;
    }
    None
}

/// Whether the first word of a line begins with `#`.
fn is_comment(line: &[u8]) -> bool {
    match skip_blanks(line) {
        [] => false,
        [byte, ..] => *byte == b'#',
    }
}
