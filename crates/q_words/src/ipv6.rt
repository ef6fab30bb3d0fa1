ghost use Rattle.std.specs.Prelude.{◌≡◌, suc, Some, None, ◌+◌, ◌≤◌, IfSome, if◌then◌else◌, nat_lt, length, take, drop, Ok, Err};
ghost use Rattle.std.specs.Str.Parse.{digits_value};
ghost use Rattle.q_words.specs.Addresses.{is_group, begins_with_two, gap_at, groups_in, ipv6_of};
ghost use Rattle.q_words.specs.Parts.{IsShort, address_from, groups_of};

use crate::ip_address::IpAddress;
use crate::parts::Parts;
use crate::values::digits_value;
use crate::wrong::Wrong;
use q_model::IpVersion;

/// The groups of an address.
const GROUPS: usize = 8;

/// Groups in a row, and the number that they write.
#[derive(Clone, Copy)]
struct Groups {
    count: usize,
    value: u128,
}

/// An address of version 6 (RFC 4291, section 2.2), without an embedded one of version 4.
pub fn ipv6(word: &[u8]) -> Result<IpAddress, Wrong>
    ensures { result ≡ ipv6_of (groups_in (take (gap_at word.now) word.now))
        (groups_in (drop (suc (suc (gap_at word.now))) word.now)) (nat_lt (gap_at word.now) (length word.now)) }
{
    let (left, right, gap) = halves(word);
    let Some(high) = read_groups(left) else {
        return Err(Wrong::BadNumber);
    };
    let Some(low) = read_groups(right) else {
        return Err(Wrong::BadNumber);
    };
    joined(high, low, gap)
}

/// What is before the first two colons and after them, and whether they are there; without them the word and nothing.
fn halves(word: &[u8]) -> (&[u8], &[u8], bool)
    ensures left { result.0.now ≡ take (gap_at word.now) word.now }
    ensures right { result.1.now ≡ drop (suc (suc (gap_at word.now))) word.now }
    ensures gap { result.2 ≡ nat_lt (gap_at word.now) (length word.now) }
{
    match first_gap(word) {
        Some(at) => (&word[..at], &word[at + 2..], true),
        None => (word, &[], false),
    }
}

/// The address of these groups, with zero groups between them where there is a gap.
fn joined(high: Groups, low: Groups, gap: bool) -> Result<IpAddress, Wrong>
    requires high { IsShort high }
    requires low { IsShort low }
    ensures { result ≡ address_from high low gap }
{
    let count = high.count + low.count;
    if count > GROUPS || gap == (count == GROUPS) {
        return Err(Wrong::BadNumber);
    }
    let address = if high.count == 0 {
        low.value
    } else {
        high.value * 0x10000_u128.pow((GROUPS - high.count) as u32) + low.value
    };
    Ok(IpAddress {
        version: IpVersion::V6,
        address,
    })
}

/// The position of the first two colons in a row.
fn first_gap(word: &[u8]) -> Option<usize>
    ensures there { IfSome result (λ at. at + 2 ≤ length word.now) }
    ensures value { result ≡ (if nat_lt (gap_at word.now) (length word.now) then Some (gap_at word.now) else None) }
{
    for at in 0..word.len() {
        if begins_with_two(&word[at..]) {
            return Some(at);
        }
    }
    None
}

/// Whether the bytes begin with two colons.
fn begins_with_two(bytes: &[u8]) -> bool
    ensures { result ≡ begins_with_two bytes.now }
{
    matches!(bytes, [b':', b':', ..])
}

/// The groups that the bytes are, with a colon between each two; `None` where they are not, or more than eight.
fn read_groups(bytes: &[u8]) -> Option<Groups>
    ensures value { result ≡ groups_of (groups_in bytes.now) }
    ensures short { IfSome result IsShort }
{
    let mut read = Groups { count: 0, value: 0 };
    if bytes.is_empty() {
        return Some(read);
    }
    let mut parts = Parts::new(bytes, b':');
    while let Some(part) = parts.next() {
        if read.count == GROUPS {
            return None;
        }
        let value = u128::from(group(part)?);
        read = Groups {
            count: read.count + 1,
            value: read.value * 0x10000 + value,
        };
    }
    Some(read)
}

/// A group: up to four hexadecimal digits.
fn group(part: &[u8]) -> Option<u16>
    ensures { result ≡ (if is_group part.now then Some (digits_value 16 part.now) else None) }
{
    if part.is_empty() || part.len() > 4 {
        return None;
    }
    let value = digits_value(part, 16)?;
    Some(value as u16)
}
