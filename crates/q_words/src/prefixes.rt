ghost use Rattle.std.specs.Prelude.{◌≡◌, Some, None};
ghost use Rattle.std.specs.List.{list_any, before_first, after_first};
ghost use Rattle.q_model.specs.Options.{bits_of};
ghost use Rattle.q_words.specs.Addresses.{is_slash, prefix_of};
ghost use Rattle.q_words.specs.Parts.{prefix_with};

use crate::addresses::address;
use crate::ip_address::IpAddress;
use crate::parts::first_mark;
use crate::values::numeral;
use crate::wrong::Wrong;
use q_model::{IpPrefix, IpVersion};

/// ADDRESS or ADDRESS/LEN: an address, and how many of its bits are compared: without a length, all.
///
/// A word of which one part has not its form is `BadNumber`, else one of which a part is out of its range `OutOfRange`.
pub fn prefix(word: &[u8]) -> Result<IpPrefix, Wrong>
    ensures { result ≡ prefix_of word.now }
{
    let (front, back) = cut_at_slash(word);
    let read = address(front);
    if has_slash(word) {
        with_length(read, back)
    } else {
        whole(read)
    }
}

/// An address of which all bits are compared.
fn whole(read: Result<IpAddress, Wrong>) -> Result<IpPrefix, Wrong>
    ensures { result ≡ prefix_with read None }
{
    let found = read?;
    Ok(IpPrefix {
        version: found.version,
        address: found.address,
        len: bits(found.version),
    })
}

/// An address, and the length behind the slash.
fn with_length(read: Result<IpAddress, Wrong>, back: &[u8]) -> Result<IpPrefix, Wrong>
    ensures { result ≡ prefix_with read (Some back.now) }
{
    let Some(len) = numeral(back) else {
        return Err(Wrong::BadNumber);
    };
    let found = read?;
    if len > u64::from(bits(found.version)) {
        return Err(Wrong::OutOfRange);
    }
    Ok(IpPrefix {
        version: found.version,
        address: found.address,
        len: len as u8,
    })
}

/// The bits of an address.
fn bits(version: IpVersion) -> u8
    ensures { result ≡ bits_of version }
{
    match version {
        IpVersion::V4 => 32,
        IpVersion::V6 => 128,
    }
}

/// The bytes before the first slash, and those after it: all of them and none where there is no slash.
fn cut_at_slash(word: &[u8]) -> (&[u8], &[u8])
    ensures before { result.0.now ≡ before_first is_slash word.now }
    ensures after { result.1.now ≡ after_first is_slash word.now }
{
    match first_mark(word, b'/') {
        Some(slash) => (&word[..slash], &word[slash + 1..]),
        None => (word, &[]),
    }
}

/// Whether a slash is in the word.
fn has_slash(word: &[u8]) -> bool
    ensures { result ≡ list_any is_slash word.now }
{
    word.contains(&b'/')
}
