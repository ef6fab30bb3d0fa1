//! What a fault of a line means.
use crate::draft::Draft;
use crate::line_words::LineWords;
use crate::missing::{push_entries, push_missing};
use crate::near::{meant, shortened};
use crate::quoting::push_word;
use crate::spot::{Spot, find};
use crate::tables::{alternatives, entries};
use crate::tc_only::{filter_of_handle, instead, word_of_tc};
use crate::word_place::WordPlace;
use q_words::LineFault;

/// Adds the sentence on a fault, at a word with this spot; then comes the rest of the line.
pub fn push_fault(
    text: &mut Draft,
    fault: LineFault,
    spot: &Spot,
    word: &[u8],
    rest: LineWords<'_>,
) {
    match fault {
        LineFault::UnknownWord(_) | LineFault::BadNumber(_) if word.starts_with(b"#") => {
            text.push("a comment needs a line of its own, which begins with #.");
        }
        LineFault::UnknownWord(_) => push_unknown(text, spot, word, rest),
        LineFault::Missing(_) => push_missing(text, spot),
        LineFault::BadNumber(_) => push_form(text, spot, word),
        LineFault::OutOfRange(_) => push_range(text, spot, word),
        LineFault::Twice(_) => push_twice(text, spot, word),
        LineFault::BadUtf8(_) => text.push("the word is not UTF-8."),
    }
}

/// Of a value that has another form.
fn push_form(text: &mut Draft, spot: &Spot, word: &[u8]) {
    push_word(text, word);
    match spot.value() {
        Some((name, value)) => text.push_parts(&[
            " is no value of ",
            name,
            ", which takes ",
            value.form(),
            value.units(),
            ".",
        ]),
        None => text.push(" has not the form of a value."),
    }
}

/// Of a value outside its range.
fn push_range(text: &mut Draft, spot: &Spot, word: &[u8]) {
    push_word(text, word);
    let Some((name, value)) = spot.value() else {
        text.push(" is out of range.");
        return;
    };
    text.push_parts(&[" is out of range: ", name, " takes ", value.range()]);
    if let [.., b'0'..=b'9'] = word {
        text.push(value.units());
    }
    text.push(".");
}

/// Of a word that was there before, or one that means the same or excludes it.
fn push_twice(text: &mut Draft, spot: &Spot, word: &[u8]) {
    push_word(text, word);
    match beside(spot, word) {
        Some(other) => {
            text.push_parts(&[" stands beside ", other, ", and a line has one of them."]);
        }
        None => text.push(" was given before."),
    }
}

/// The other word that was there, of which a line has one.
fn beside(spot: &Spot, word: &[u8]) -> Option<&'static str> {
    let name = find(spot.place, word)?.name();
    if spot.has(name) {
        return None;
    }
    spot.first_of(alternatives(name))
}

/// The sentence on a word that may not be there.
fn push_unknown(text: &mut Draft, spot: &Spot, word: &[u8], rest: LineWords<'_>) {
    if spot.value().is_some() {
        push_form(text, spot, word);
        return;
    }
    match word_of_tc(spot.place, word) {
        Some(name) => push_of_tc(text, spot.place, name, rest),
        None => push_misplaced(text, spot, word),
    }
}

/// Of a word that tc reads.
fn push_of_tc(text: &mut Draft, place: WordPlace, name: &'static str, rest: LineWords<'_>) {
    match filter_of_handle(place, name, rest) {
        Some(filter) => text.push_parts(&[
            "tc has the filter ",
            filter,
            ", qtree does not; the handle is one of its words. Use flower.",
        ]),
        None => {
            text.push_parts(&[
                "tc has ",
                name,
                ", qtree does not",
                instead(place, name),
                ".",
            ]);
        }
    }
}

/// Of a word that may be elsewhere, or nowhere.
fn push_misplaced(text: &mut Draft, spot: &Spot, word: &[u8]) {
    push_word(text, word);
    match spot.place {
        WordPlace::End => text.push(" is one word too many: the line is whole before it."),
        WordPlace::First if find(spot.place, word).is_some() => text.push(
            " sets up no device; qtree drive reads lines of tc, blank ones and comments alone.",
        ),
        _ if is_of_head(spot, word) => {
            text.push_parts(&[" has to stand before ", last_word(spot), "."]);
        }
        place => push_no_word(text, place, word),
    }
}

/// The word before one that has to stand before it.
fn last_word(spot: &Spot) -> &'static str {
    match spot.seen.last() {
        Some(entry) => entry.name(),
        None => "the kind",
    }
}

/// Adds that a word is none of those at a place, and the one that was meant, or all of these.
fn push_no_word(text: &mut Draft, place: WordPlace, word: &[u8]) {
    match place {
        WordPlace::First => text.push(" begins no line; "),
        _ => text.push_parts(&[what(place), place.name(), "; "]),
    }
    if let Some(name) = shortened(place, word) {
        text.push_parts(&["words are not shortened: write ", name, "."]);
    } else if let Some(name) = meant(place, word) {
        text.push_parts(&["did you mean ", name, "?"]);
    } else {
        push_all_words(text, place);
    }
}

/// Adds the words that may be at a place.
fn push_all_words(text: &mut Draft, place: WordPlace) {
    if entries(place).is_empty() {
        text.push("it has none.");
        return;
    }
    text.push(match place {
        WordPlace::First => "a line begins with ",
        _ => "it has: ",
    });
    push_entries(text, place);
    text.push(".");
}

/// Whether the word belongs to the head, which has ended.
fn is_of_head(spot: &Spot, word: &[u8]) -> bool {
    match find(spot.head, word) {
        Some(entry) => entry.next() == spot.head && spot.place != spot.head,
        None => false,
    }
}

/// What a word is not.
fn what(place: WordPlace) -> &'static str {
    match place {
        WordPlace::Tc | WordPlace::TcCounters => " is no object of ",
        WordPlace::Qdisc | WordPlace::Class | WordPlace::Filter => " is no verb of ",
        WordPlace::Flower => " is no key of ",
        place if place.is_head() || place == WordPlace::Show => " is no word of ",
        _ => " is no option of ",
    }
}
