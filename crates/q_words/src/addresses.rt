ghost use Rattle.std.specs.Prelude.{◌≡◌};
ghost use Rattle.std.specs.List.{list_any};
ghost use Rattle.q_words.specs.Values.{is_colon};
ghost use Rattle.q_words.specs.Addresses.{address_of};

use crate::ip_address::IpAddress;
use crate::ipv4::ipv4;
use crate::ipv6::ipv6;
use crate::wrong::Wrong;

/// ADDRESS: one of version 6 where the word has a colon, else one of version 4.
///
/// Of version 4, four numbers of which one is above 255 are `OutOfRange`; any other word that is no address is `BadNumber`.
pub fn address(word: &[u8]) -> Result<IpAddress, Wrong>
    ensures { result ≡ address_of word.now }
{
    if has_colon(word) {
        ipv6(word)
    } else {
        ipv4(word)
    }
}

/// Whether a colon is in the word.
fn has_colon(word: &[u8]) -> bool
    ensures { result ≡ list_any is_colon word.now }
{
    word.contains(&b':')
}
