use crate::line_words::LineWords;
use crate::table_entry::TableEntry;
use crate::tables::{POLLS, entries};
use crate::value::Value;
use crate::word_place::WordPlace;
use std::alloc::{AllocError, Global};

/// What the words of a line left of one say of it. They have no fault.
#[derive(Drop)]
pub struct Spot {
    /// The place of the word, if it is no value.
    pub place: WordPlace,
    /// The head of a tc line that was there, or [`WordPlace::First`].
    pub head: WordPlace,
    /// The words that were there with their tables, without values.
    pub seen: Vec<TableEntry>,
    /// The values that have to follow the last of these.
    pub values: &'static [Value],
}

impl Spot {
    /// The beginning of a line.
    pub fn new(alloc: Global) -> Spot {
        Spot {
            place: WordPlace::First,
            head: WordPlace::First,
            seen: Vec::new(alloc),
            values: &[],
        }
    }

    /// Behind so many words of a line, which are taken off its words.
    pub fn behind(
        alloc: Global,
        words: &mut LineWords<'_>,
        count: usize,
    ) -> Result<Spot, AllocError> {
        let mut spot = Spot::new(alloc);
        for _ in 0..count {
            match words.next() {
                Some(word) => spot.pass(word.bytes)?,
                None => break,
            }
        }
        Ok(spot)
    }

    /// The value that a word is here, and the word that takes it.
    pub fn value(&self) -> Option<(&'static str, Value)> {
        match (self.values, self.seen.last()) {
            ([value, ..], Some(entry)) => Some((entry.name(), *value)),
            _ if self.place == WordPlace::Poll => Some(("poll", POLLS)),
            _ => None,
        }
    }

    /// Whether one of these words was there.
    pub fn has_one_of(&self, names: &[&'static str]) -> bool {
        self.first_of(names).is_some()
    }

    /// The first of these words that was there.
    pub fn first_of(&self, names: &[&'static str]) -> Option<&'static str> {
        for name in names {
            if self.has(name) {
                return Some(name);
            }
        }
        None
    }

    /// Whether this word was there, in the head or behind it.
    pub fn has(&self, name: &str) -> bool {
        for entry in &self.seen {
            if entry.name() == name {
                return true;
            }
        }
        false
    }

    /// Passes a word.
    pub fn pass(&mut self, word: &[u8]) -> Result<(), AllocError> {
        if let Some((_, rest)) = self.values.split_first() {
            self.values = rest;
            return Ok(());
        }
        let Some(entry) = find(self.place, word) else {
            self.place = WordPlace::End;
            return Ok(());
        };
        if entry.next().is_head() {
            self.head = entry.next();
        }
        self.place = entry.next();
        self.values = entry.values();
        self.seen.push(entry)?;
        Ok(())
    }
}

/// The entry of a word at a place.
pub fn find(place: WordPlace, word: &[u8]) -> Option<TableEntry> {
    for entry in entries(place) {
        if entry.name().as_bytes() == word {
            return Some(*entry);
        }
    }
    None
}
