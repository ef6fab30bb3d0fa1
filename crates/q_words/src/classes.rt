ghost use Rattle.std.specs.Prelude.{◌≡◌};
ghost use Rattle.q_words.specs.Addresses.{class_of};

use crate::values::{MAX_MAJOR, cut_at_colon, digits_value};
use crate::wrong::Wrong;
use q_model::{ClassId, Handle, Minor};

/// CLASS: `M:m` (tc(8), "NAMING"), both of one to four hexadecimal digits, M from 1 to fffe and m from 1 to ffff.
///
/// Another form of the whole word is `BadNumber`; digits alone that are too many or out of range are `OutOfRange`.
pub fn class(word: &[u8]) -> Result<ClassId, Wrong>
    ensures { result ≡ class_of word.now }
{
    let (major, minor) = cut_at_colon(word);
    let Some(above) = digits_value(major, 16) else {
        return Err(Wrong::BadNumber);
    };
    let Some(below) = digits_value(minor, 16) else {
        return Err(Wrong::BadNumber);
    };
    if major.is_empty() || minor.is_empty() {
        return Err(Wrong::BadNumber);
    }
    if major.len() > 4 || minor.len() > 4 {
        return Err(Wrong::OutOfRange);
    }
    if above < 1 || above > MAX_MAJOR || below < 1 {
        return Err(Wrong::OutOfRange);
    }
    Ok(ClassId {
        major: Handle::new(above as u16).unwrap(),
        minor: Minor::new(below as u16).unwrap(),
    })
}
