ghost use Rattle.std.specs.Prelude.{◌≡◌, ◌==◌, ◌∷◌, [], length, false, MatchOption};
ghost use Rattle.std.specs.List.{slice_split};
ghost use Rattle.q_words.specs.Units.{is_point};
ghost use Rattle.q_words.specs.Addresses.{ipv4_of};

use crate::ip_address::IpAddress;
use crate::parts::Parts;
use crate::values::numeral;
use crate::wrong::Wrong;
use q_model::IpVersion;

/// An address of version 4: four numbers up to 255, of at most three digits each, with a point between each two.
///
/// Four numbers of which one is too large are `OutOfRange`, any other word is `BadNumber`.
pub fn ipv4(word: &[u8]) -> Result<IpAddress, Wrong>
    ensures { result ≡ ipv4_of (slice_split is_point word.now) }
{
    let Some((first, second, third, fourth)) = four(word) else {
        return Err(Wrong::BadNumber);
    };
    let a = numeral(first).ok_or(Wrong::BadNumber)?;
    let b = numeral(second).ok_or(Wrong::BadNumber)?;
    let c = numeral(third).ok_or(Wrong::BadNumber)?;
    let d = numeral(fourth).ok_or(Wrong::BadNumber)?;
    if a > 255 || b > 255 || c > 255 || d > 255 {
        return Err(Wrong::OutOfRange);
    }
    if first.len() > 3 || second.len() > 3 || third.len() > 3 || fourth.len() > 3 {
        return Err(Wrong::BadNumber);
    }
    let address = ((a * 256 + b) * 256 + c) * 256 + d;
    Ok(IpAddress {
        version: IpVersion::V4,
        address: u128::from(address),
    })
}

/// The pieces between the points of a word; `None` where they are not four.
fn four(word: &[u8]) -> Option<(&[u8], &[u8], &[u8], &[u8])>
    ensures { MatchOption result ((length (slice_split is_point word.now) == 4) ≡ false)
        (λ f. slice_split is_point word.now ≡ f.0.now ∷ f.1.now ∷ f.2.now ∷ f.3.now ∷ []) }
{
    let mut parts = Parts::new(word, b'.');
    let first = parts.next()?;
    let second = parts.next()?;
    let third = parts.next()?;
    let fourth = parts.next()?;
    match parts.next() {
        None => Some((first, second, third, fourth)),
        Some(_) => None,
    }
}
