ghost use Rattle.std.specs.Prelude.{◌≡◌};
ghost use Rattle.q_words.specs.Addresses.{protocol_number, protocol_of};
ghost use Rattle.q_words.specs.Parts.{byte_of};

use crate::values::digits_value;
use crate::wrong::Wrong;
use q_model::Protocol;

/// IPPROTO: a protocol above IP, by its name or as a hexadecimal number up to ff.
///
/// A greater number is `OutOfRange`, any other word `BadNumber`.
pub fn ip_proto(word: &str) -> Result<u8, Wrong>
    ensures { result ≡ protocol_number word.now }
{
    match word {
        "tcp" => Ok(6),
        "udp" => Ok(17),
        "sctp" => Ok(132),
        "icmp" => Ok(1),
        "icmpv6" => Ok(58),
        _ => hexadecimal(word.as_bytes()),
    }
}

/// A hexadecimal number up to ff.
fn hexadecimal(word: &[u8]) -> Result<u8, Wrong>
    ensures { result ≡ byte_of word.now }
{
    match digits_value(word, 16) {
        Some(value) if !word.is_empty() => {
            if value <= 0xff {
                Ok(value as u8)
            } else {
                Err(Wrong::OutOfRange)
            }
        }
        _ => Err(Wrong::BadNumber),
    }
}

/// The protocol of the packets that a filter tests: `ip`, `ipv6` or `all`. Any other word is `UnknownWord`.
pub fn protocol(word: &str) -> Result<Protocol, Wrong>
    ensures { result ≡ protocol_of word.now }
{
    match word {
        "ip" => Ok(Protocol::Ip),
        "ipv6" => Ok(Protocol::Ipv6),
        "all" => Ok(Protocol::All),
        _ => Err(Wrong::UnknownWord),
    }
}
