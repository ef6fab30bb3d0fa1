//! How text is cut into words, each of which is text again: so text is checked for UTF-8 once.

ghost use Rattle.std.specs.Prelude.{◌≡◌, ◌<◌, ◌≤◌, true, false, ◌∷◌, length, slice_index};
ghost use Rattle.std.specs.Str.{is_utf8};
ghost use Rattle.q_words.specs.Words.{words_in, is_blank};

use crate::cutting::{first_blank, first_filled};

/// The text from the first word on.
pub fn skip_blanks(text: &str) -> &str
    ensures words { words_in result.now ≡ words_in text.now }
    ensures first { 0 < length result.now → is_blank (slice_index result.now 0) ≡ false }
    ensures shorter { length result.now ≤ length text.now }
{
    let bytes = text.as_bytes();
    let start = first_filled(bytes).unwrap_or(bytes.len());
    &text[start..]
}

/// The word that the text begins with, and the text after it and the blank behind it.
pub fn cut_word(text: &str) -> (&str, &str)
    requires some { 0 < length text.now }
    requires first { is_blank (slice_index text.now 0) ≡ false }
    ensures words { words_in text.now ≡ result.0.now ∷ words_in result.1.now }
    ensures filled { 0 < length result.0.now }
    ensures utf8 { is_utf8 result.0.now ≡ true }
    ensures shorter { length result.1.now < length text.now }
{
    match first_blank(text.as_bytes()) {
        Some(end) => (&text[..end], &text[end + 1..]),
        None => (text, ""),
    }
}
