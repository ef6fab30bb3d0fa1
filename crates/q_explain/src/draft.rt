use std::alloc::{AllocError, Global};

/// A text that is being written. Once an allocation for it fails nothing more is added, and nothing comes of it: so what writes it
/// need not ask after each part.
#[derive(Drop)]
pub struct Draft {
    text: String,
    failed: bool,
}

impl Draft {
    /// One without a byte.
    pub fn new(alloc: Global) -> Draft {
        Draft {
            text: String::new(alloc),
            failed: false,
        }
    }

    /// How many bytes it has.
    pub fn len(&self) -> usize {
        self.text.len()
    }

    /// Adds a text.
    pub fn push(&mut self, part: &str) {
        if !self.failed {
            self.failed = self.text.push_str(part).is_err();
        }
    }

    /// Adds texts, one behind the other.
    pub fn push_parts(&mut self, parts: &[&str]) {
        for part in parts {
            self.push(part);
        }
    }

    /// Adds a text so many times.
    pub fn push_times(&mut self, part: &str, count: usize) {
        for _ in 0..count {
            self.push(part);
        }
    }

    /// Adds a character.
    pub fn push_char(&mut self, c: char) {
        if !self.failed {
            self.failed = self.text.push(c).is_err();
        }
    }

    /// Adds a number in decimal digits.
    pub fn push_number(&mut self, number: u64) {
        if !self.failed {
            self.failed = write!(self.text, "{number}").is_err();
        }
    }

    /// Adds a byte as `\xNN`.
    pub fn push_escaped(&mut self, byte: u8) {
        if !self.failed {
            self.failed = write!(self.text, "\\x{byte:02x}").is_err();
        }
    }

    /// The text.
    pub fn finish(self) -> Result<String, AllocError> {
        if self.failed {
            return Err(AllocError);
        }
        Ok(self.text)
    }
}
