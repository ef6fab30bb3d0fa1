//! What a line lacks that ends too soon.
use crate::draft::Draft;
use crate::spot::Spot;
use crate::tables::{entries, needs};
use crate::word_place::WordPlace;

/// Adds the sentence that says what is missing behind the last word of a line.
pub fn push_missing(text: &mut Draft, spot: &Spot) {
    match spot.value() {
        Some((name, value)) => text.push_parts(&[name, " needs a value: ", value.form(), "."]),
        None => push_missing_word(text, spot),
    }
}

/// Adds the sentence on the words that are missing, or on the one that has to come.
fn push_missing_word(text: &mut Draft, spot: &Spot) {
    let of_head = push_needs(text, spot, spot.head, "");
    let joint = if of_head { "; " } else { "" };
    let ends_in_head = spot.place == spot.head;
    let of_place = !ends_in_head && push_needs(text, spot, spot.place, joint);
    if of_head || of_place {
        text.push(".");
    } else if ends_in_head {
        push_kind(text, spot.head);
    } else {
        push_next(text, spot.place);
    }
}

/// Adds what is needed at a place and is not there, behind a joint; whether anything was added.
fn push_needs(text: &mut Draft, spot: &Spot, place: WordPlace, joint: &'static str) -> bool {
    let mut front = [joint, place.needing(), " needs "];
    let mut added = false;
    for names in needs(place) {
        if !spot.has_one_of(names) {
            text.push_parts(&front);
            push_joined(text, names);
            front = [", and ", "", ""];
            added = true;
        }
    }
    added
}

/// Adds the sentence on the word that ends a head.
fn push_kind(text: &mut Draft, head: WordPlace) {
    let needed = match head {
        WordPlace::ClassAdd | WordPlace::ClassChange => " needs drr behind these words.",
        WordPlace::FilterAdd => " needs flower behind these words.",
        _ => " needs a kind behind these words: pfifo, bfifo, prio, tbf, drr or fq_codel.",
    };
    text.push_parts(&[head.name(), needed]);
}

/// Adds the sentence on the word that has to be at a place.
fn push_next(text: &mut Draft, place: WordPlace) {
    match place {
        WordPlace::Prio => text.push("two bands need a priomap of 16 bands."),
        _ => {
            text.push_parts(&[place.name(), " needs "]);
            push_entries(text, place);
            text.push(".");
        }
    }
}

/// Adds the words that may be at a place, with `or` before the last.
pub fn push_entries(text: &mut Draft, place: WordPlace) {
    let mut left = entries(place).len();
    for entry in entries(place) {
        left = left.saturating_sub(1);
        text.push_parts(&[entry.name(), joint(left)]);
    }
}

/// Adds names, with `or` before the last.
fn push_joined(text: &mut Draft, names: &[&'static str]) {
    let mut left = names.len();
    for name in names {
        left = left.saturating_sub(1);
        text.push_parts(&[*name, joint(left)]);
    }
}

/// What comes after a name, if so many follow.
fn joint(left: usize) -> &'static str {
    match left {
        0 => "",
        1 => " or ",
        _ => ", ",
    }
}
