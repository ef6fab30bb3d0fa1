//! How the bytes of a script are written: letters and digits of any script and printable ASCII as they are, all else as `\xNN`.
use crate::draft::Draft;
use std::str::from_utf8;

/// The most bytes of a word that a sentence repeats.
const LONGEST: usize = 40;

/// The columns of a byte as `\xNN`.
const ESCAPED: usize = 4;

/// Adds bytes of a script, and returns how many columns they take.
pub fn push_shown(text: &mut Draft, bytes: &[u8]) -> usize {
    let mut columns = 0usize;
    match from_utf8(bytes) {
        Ok(chars) => {
            for c in chars.chars() {
                columns = columns.saturating_add(push_char(text, c));
            }
        }
        Err(_) => {
            for byte in bytes {
                columns = columns.saturating_add(push_byte(text, *byte));
            }
        }
    }
    columns
}

/// Adds a word that a sentence speaks of.
pub fn push_word(text: &mut Draft, word: &[u8]) {
    push_shown(text, &word[..word.len().min(LONGEST)]);
    if word.len() > LONGEST {
        text.push("..");
    }
}

/// Adds a character, and returns how many columns it takes.
fn push_char(text: &mut Draft, c: char) -> usize {
    if c == ' ' || c.is_ascii_graphic() || (!c.is_ascii() && c.is_alphanumeric()) {
        text.push_char(c);
        return 1;
    }
    let mut columns = 0usize;
    let mut room = [0u8; 4];
    for byte in c.encode_utf8(&mut room).as_bytes() {
        text.push_escaped(*byte);
        columns = columns.saturating_add(ESCAPED);
    }
    columns
}

/// Adds a byte of what is no UTF-8.
fn push_byte(text: &mut Draft, byte: u8) -> usize {
    if byte == b' ' || byte.is_ascii_graphic() {
        text.push_char(char::from(byte));
        return 1;
    }
    text.push_escaped(byte);
    ESCAPED
}
