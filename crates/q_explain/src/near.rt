//! Words that were meant: shortened as tc lets them be, or mistyped by one letter.
use crate::table_entry::TableEntry;
use crate::tables::entries;
use crate::word_place::WordPlace;

/// The fewest bytes of a word that is taken for a mistyped one.
const SHORTEST: usize = 3;

/// The word of a place that this one shortens.
pub fn shortened(place: WordPlace, word: &[u8]) -> Option<&'static str> {
    for entry in entries(place) {
        let name = entry.name().as_bytes();
        if name.len() > word.len() && name.starts_with(word) {
            return Some(entry.name());
        }
    }
    None
}

/// The word of a place from which this one differs by a letter more, a letter less, another letter, or two letters that changed
/// places.
pub fn meant(place: WordPlace, word: &[u8]) -> Option<&'static str> {
    if word.len() < SHORTEST {
        return None;
    }
    for entry in entries(place) {
        if is_near(entry, word) {
            return Some(entry.name());
        }
    }
    None
}

/// Whether a word differs by so much from that of an entry.
fn is_near(entry: &TableEntry, word: &[u8]) -> bool {
    let (name, word) = without_same_front(entry.name().as_bytes(), word);
    let (name, word) = without_same_end(name, word);
    match (name, word) {
        ([a, b], [c, d]) => a == d && b == c,
        _ => name.len() <= 1 && word.len() <= 1,
    }
}

/// What is left of two words without the bytes with which both begin.
fn without_same_front<'a, 'b>(mut a: &'a [u8], mut b: &'b [u8]) -> (&'a [u8], &'b [u8]) {
    for _ in 0..a.len() {
        let (Some((x, behind)), Some((y, rest))) = (a.split_first(), b.split_first()) else {
            break;
        };
        if x != y {
            break;
        }
        a = behind;
        b = rest;
    }
    (a, b)
}

/// What is left of two words without the bytes with which both end.
fn without_same_end<'a, 'b>(mut a: &'a [u8], mut b: &'b [u8]) -> (&'a [u8], &'b [u8]) {
    for _ in 0..a.len() {
        let (Some((x, before)), Some((y, rest))) = (a.split_last(), b.split_last()) else {
            break;
        };
        if x != y {
            break;
        }
        a = before;
        b = rest;
    }
    (a, b)
}
