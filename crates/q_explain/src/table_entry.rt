use crate::value::Value;
use crate::word_place::WordPlace;

/// A word that may be at a place, the values behind it, and the place of the word behind them.
#[derive(Clone, Copy)]
pub struct TableEntry(pub &'static str, pub &'static [Value], pub WordPlace);

impl TableEntry {
    /// The word.
    pub fn name(self) -> &'static str {
        self.0
    }

    /// The values behind it.
    pub fn values(self) -> &'static [Value] {
        self.1
    }

    /// The place of the word behind them.
    pub fn next(self) -> WordPlace {
        self.2
    }
}
