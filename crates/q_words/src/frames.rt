ghost use Rattle.std.specs.Prelude.{◌≡◌, ◌≤◌, ◌<◌, ◌∷◌, [], length, take, true};
ghost use Rattle.std.specs.Char.{digit_value, is_digit};
ghost use Rattle.std.specs.Str.Parse.{digits_value};
ghost use Rattle.q_words.specs.Values.{is_digits};
ghost use Rattle.q_words.specs.Addresses.{bytes_from};
ghost use Rattle.q_words.specs.Parts.{head_of_frame};

use crate::values::digits_value;
use crate::wrong::Wrong;
use q_packet::{Head, read_head};

/// The most bytes from which a header is read: an IPv4 header has at most 60, and the ports come after it.
const HEAD_BYTES: usize = 64;

/// HEX: the first bytes of a packet, in two hexadecimal digits each, one byte or more; returns the head that they begin with.
///
/// A word of another form is `BadNumber`.
pub fn frame_head(word: &[u8]) -> Result<Head, Wrong>
    ensures { result ≡ head_of_frame word.now }
{
    if word.is_empty() || word.len() % 2 != 0 || digits_value(word, 16).is_none() {
        return Err(Wrong::BadNumber);
    }
    let (bytes, count) = first_bytes(word);
    Ok(read_head(&bytes[..count]))
}

/// The first bytes that the digits write, at most as many as a head is read from, and how many they are.
fn first_bytes(digits: &[u8]) -> ([u8; HEAD_BYTES], usize)
    requires { is_digits 16 digits.now ≡ true }
    ensures few { result.1 ≤ 64 }
    ensures bytes { take result.1 result.0 ≡ take 64 (bytes_from digits.now) }
{
    let mut bytes = [0; HEAD_BYTES];
    let mut count = 0;
    let mut rest = digits;
    while let [high, low, behind @ ..] = rest {
        if count == HEAD_BYTES {
            break;
        }
        bytes[count] = byte(*high, *low);
        count += 1;
        rest = behind;
    }
    (bytes, count)
}

/// The byte that two hexadecimal digits write.
fn byte(high: u8, low: u8) -> u8
    requires high { is_digit high 16 ≡ true }
    requires low { is_digit low 16 ≡ true }
    ensures { result ≡ digits_value 16 (high ∷ low ∷ []) }
{
    digit(high) * 16 + digit(low)
}

/// The value of a hexadecimal digit.
fn digit(byte: u8) -> u8
    requires { is_digit byte 16 ≡ true }
    ensures value { result ≡ digit_value byte }
    ensures small { result < 16 }
{
    match char::from(byte).to_digit(16) {
        Some(value) => value as u8,
        None => unreachable!(),
    }
}
