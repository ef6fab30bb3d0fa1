ghost use Rattle.std.specs.Prelude.{◌≡◌, ◌≤◌, ◌<◌, ◌^◌, ◌-◌, IfOk, Some, None, min, if◌then◌else◌};
ghost use Rattle.std.specs.Str.Parse.{digits_value};
ghost use Rattle.std.specs.List.{position, before_first, after_first};
ghost use Rattle.q_words.specs.Values.{is_digits, is_numeral, is_colon, number_in, handle_of, name_of};

use crate::wrong::Wrong;
use q_model::Handle;

/// The greatest major number of a handle: in Linux's `pkt_sched.h` ffff is that of the root and of ingress.
pub const MAX_MAJOR: u64 = 0xfffe;

/// The number that the digits write in the base, and the greatest `u64` where it is greater; `None` where a byte is no digit.
pub fn digits_value(bytes: &[u8], base: u32) -> Option<u64>
    requires low { 2 ≤ base }
    requires high { base ≤ 36 }
    ensures { result ≡ (if is_digits base bytes.now then Some (min (digits_value base bytes.now) (2 ^ 64 - 1)) else None) }
{
    let mut value = 0_u64;
    for byte in bytes {
        let digit = char::from(*byte).to_digit(base)?;
        value = value
            .saturating_mul(u64::from(base))
            .saturating_add(u64::from(digit));
    }
    Some(value)
}

/// The number that decimal digits write, and the greatest `u64` where it is greater; `None` where they are none, or not all
/// digits.
pub fn numeral(part: &[u8]) -> Option<u64>
    ensures { result ≡ (if is_numeral 10 part.now then Some (min (digits_value 10 part.now) (2 ^ 64 - 1)) else None) }
{
    if part.is_empty() {
        return None;
    }
    digits_value(part, 10)
}

/// NUMBER: decimal digits, of any length, that write a number from `low` to `high`.
///
/// Another form is `BadNumber`, a number outside the range `OutOfRange`.
pub fn number(word: &[u8], low: u64, high: u64) -> Result<u64, Wrong>
    requires { high < 2 ^ 64 - 1 }
    ensures value { result ≡ number_in low high word.now }
    ensures least { IfOk result (λ n. low ≤ n) }
    ensures in_range { IfOk result (λ n. n ≤ high) }
{
    match digits_value(word, 10) {
        Some(value) if !word.is_empty() => {
            if low <= value && value <= high {
                Ok(value)
            } else {
                Err(Wrong::OutOfRange)
            }
        }
        _ => Err(Wrong::BadNumber),
    }
}

/// The place of the first colon.
fn first_colon(word: &[u8]) -> Option<usize>
    ensures { result ≡ position is_colon word.now }
{
    word.iter().position(|byte| *byte == b':')
}

/// The bytes before the first colon, and those after it: all of them and none where there is no colon.
pub fn cut_at_colon(word: &[u8]) -> (&[u8], &[u8])
    ensures before { result.0.now ≡ before_first is_colon word.now }
    ensures after { result.1.now ≡ after_first is_colon word.now }
{
    match first_colon(word) {
        Some(colon) => (&word[..colon], &word[colon + 1..]),
        None => (word, &[]),
    }
}

/// HANDLE: `M`, `M:` or `M:0` (tc(8), a qdisc's handle), M of one to four hexadecimal digits, 1 to fffe; returns M.
///
/// Another form of the whole word is `BadNumber`; digits alone that are too many or out of range are `OutOfRange`.
pub fn handle(word: &[u8]) -> Result<Handle, Wrong>
    ensures { result ≡ handle_of word.now }
{
    let (major, minor) = cut_at_colon(word);
    let Some(number) = digits_value(major, 16) else {
        return Err(Wrong::BadNumber);
    };
    let Some(below) = digits_value(minor, 16) else {
        return Err(Wrong::BadNumber);
    };
    if major.is_empty() {
        return Err(Wrong::BadNumber);
    }
    if major.len() > 4 || minor.len() > 1 {
        return Err(Wrong::OutOfRange);
    }
    if number < 1 || number > MAX_MAJOR || below > 0 {
        return Err(Wrong::OutOfRange);
    }
    Ok(Handle::new(number as u16).unwrap())
}

/// NAME: a device's name, of at most 15 bytes; a longer one is `OutOfRange`.
pub fn name(word: &[u8]) -> Result<(), Wrong>
    ensures { result ≡ name_of word.now }
{
    if word.len() <= 15 {
        Ok(())
    } else {
        Err(Wrong::OutOfRange)
    }
}
