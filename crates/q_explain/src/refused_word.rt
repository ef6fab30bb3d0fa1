use crate::line_words::{LineWords, first_word};
use crate::spot::{Spot, find};
use crate::word::Word;
use q_model::Refusal;
use std::alloc::{AllocError, Global};

const KINDS: &[&str] = &["pfifo", "bfifo", "prio", "tbf", "drr", "fq_codel", "flower"];

/// The words that a refusal may be of: the first of these that a line has is marked, or its value; the first word if it has none.
pub fn candidates(refusal: Refusal) -> &'static [&'static str] {
    match refusal {
        Refusal::NoParent => &["parent"],
        Refusal::Exists => &["root", "classid", "parent"],
        Refusal::NoQdisc => &["handle", "parent", "classid", "root"],
        Refusal::HandleTaken => &["handle"],
        Refusal::NotClassful => &["parent", "classid"],
        Refusal::NoClass => &["classid", "flowid", "parent"],
        Refusal::Busy => &["bands", "classid"],
        Refusal::CannotChange => &[
            "classid", "pfifo", "bfifo", "prio", "tbf", "drr", "fq_codel",
        ],
        Refusal::TooDeep | Refusal::TooMany => KINDS,
        Refusal::SmallBurst => &["burst", "buffer", "maxburst"],
        Refusal::NoFilter => &["prio", "pref"],
        Refusal::Memory => &[],
    }
}

/// The first of these words that a line without a fault has, or its value; the line's first word where it has none of them.
pub fn marked_word<'a>(
    alloc: Global,
    line: &'a [u8],
    names: &[&str],
) -> Result<Word<'a>, AllocError> {
    for name in names {
        if let Some(word) = named(alloc, LineWords::new(line), name)? {
            return Ok(word);
        }
    }
    Ok(first_word(line))
}

/// The first value of the word of this name, or the word itself where it has no value.
fn named<'a>(
    alloc: Global,
    mut words: LineWords<'a>,
    name: &str,
) -> Result<Option<Word<'a>>, AllocError> {
    let mut spot = Spot::new(alloc);
    for _ in 0..usize::MAX {
        match words.next() {
            Some(word) if !is_named(&spot, word, name) => spot.pass(word.bytes)?,
            found => return Ok(found),
        }
    }
    Ok(None)
}

/// Whether a word is the value of the one of this name, or that word and has no value.
fn is_named(spot: &Spot, word: Word<'_>, name: &str) -> bool {
    if let Some((owner, _)) = spot.value() {
        return owner == name;
    }
    match find(spot.place, word.bytes) {
        Some(entry) => entry.name() == name && entry.values().is_empty(),
        None => false,
    }
}
