//! The line that a packet is.
ghost use Rattle.std.specs.Prelude.{◌≡◌, ◌≤◌, ◌++◌, length};
ghost use Rattle.q_line.specs.Spelling.{address_words, version_in};
ghost use Rattle.q_line.specs.declared.line.Line.TheVariants as line;
ghost use Rattle.q_show.specs.Lengths.{GrowsBy, HasRoom};
ghost use Rattle.q_spelling.specs.Events.{line_text};
ghost use Rattle.q_spelling.specs.Lengths.{most_addresses};
ghost use Rattle.q_spelling.specs.Words.{spaced};

use crate::addresses::put_named_address;
use crate::options::{put_given, put_hexadecimal, put_number};
use q_line::Arrival;
use q_model::IpVersion;
use q_packet::FlowKey;
use q_show::Text;

/// The `pkt` line of a packet, without its newline. Of a packet that is not IP it has no addresses.
pub fn arrival_text(arrival: &Arrival) -> Text
    ensures { result ≡ line_text (line.Pkt arrival.now) }
{
    let mut text = Text::new();
    let key = &arrival.key;
    text.put(b"pkt ");
    text.put_number(u64::from(arrival.len));
    put_given(&mut text, b"hash", arrival.hash);
    put_number(&mut text, b"prio", u64::from(arrival.prio));
    put_hexadecimal(&mut text, b"ip_proto", key.proto);
    put_addresses(&mut text, key);
    put_number(&mut text, b"src_port", u64::from(key.sport));
    put_number(&mut text, b"dst_port", u64::from(key.dport));
    put_number(&mut text, b"ecn", u64::from(arrival.ecn.bits()));
    text
}

/// Both addresses of a packet of IP.
fn put_addresses(text: &mut Text, key: &FlowKey)
    requires { HasRoom text.old most_addresses }
    ensures text { text.new ≡ text.old ++ spaced (address_words (version_in key.now.family) key.now.src key.now.dst) }
    ensures short { GrowsBy text.old text.new most_addresses }
{
    let version = match key.family {
        4 => IpVersion::V4,
        6 => IpVersion::V6,
        _ => return,
    };
    put_named_address(text, b"src_ip", version, key.src);
    put_named_address(text, b"dst_ip", version, key.dst);
}
