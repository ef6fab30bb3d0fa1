ghost use Rattle.std.specs.Prelude.{◌≡◌};
ghost use Rattle.std.specs.List.{list_any, before_first, after_first};
ghost use Rattle.q_words.specs.Units.{is_point};
ghost use Rattle.q_words.specs.Decimals.{decimal_of};

use crate::parts::first_mark;
use crate::values::numeral;

/// The most decimal places.
const MOST_PLACES: usize = 9;

/// A decimal.
#[derive(Clone, Copy)]
pub struct Decimal {
    /// Its whole number, and the greatest `u64` where it is greater.
    pub whole: u64,
    /// The number that its decimal places write, and how many they are.
    pub behind: u64,
    pub places: u32,
}

/// The decimal that a word is: digits, and perhaps a point and up to nine digits more; `None` for any other word.
pub fn read_decimal(word: &[u8]) -> Option<Decimal>
    ensures { result ≡ decimal_of word.now }
{
    let (front, back) = cut_at_point(word);
    let whole = numeral(front)?;
    if !has_point(word) {
        return Some(Decimal {
            whole,
            behind: 0,
            places: 0,
        });
    }
    if back.len() > MOST_PLACES {
        return None;
    }
    let behind = numeral(back)?;
    Some(Decimal {
        whole,
        behind,
        places: back.len() as u32,
    })
}

/// The bytes before the first point, and those after it: all of them and none where there is no point.
fn cut_at_point(word: &[u8]) -> (&[u8], &[u8])
    ensures before { result.0.now ≡ before_first is_point word.now }
    ensures after { result.1.now ≡ after_first is_point word.now }
{
    match first_mark(word, b'.') {
        Some(point) => (&word[..point], &word[point + 1..]),
        None => (word, &[]),
    }
}

/// Whether a point is in the word.
fn has_point(word: &[u8]) -> bool
    ensures { result ≡ list_any is_point word.now }
{
    word.contains(&b'.')
}
