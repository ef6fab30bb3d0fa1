//! A filter of a node.
ghost use Rattle.std.specs.Prelude.{◌≡◌, ◌≤◌, ◌++◌, ◌∷◌, [], codes, length};
ghost use Rattle.q_line.specs.Spelling.{filter_words, keys_words, protocol_word};
ghost use Rattle.q_show.specs.Lengths.{GrowsBy, HasRoom};
ghost use Rattle.q_spelling.specs.Lengths.{most_filter, most_keys, most_protocol};
ghost use Rattle.q_spelling.specs.Words.{spaced};

use crate::addresses::put_given_prefix;
use crate::options::{put_class, put_given_hexadecimal, put_given_port, put_handle, put_number};
use q_model::{ClassId, Filter, FilterKeys, Handle, Protocol};
use q_show::Text;

/// The node that has the filter, which packets it tests, and the class that it puts them into.
pub fn put_filter(text: &mut Text, parent: Handle, major: Handle, filter: &Filter)
    requires { HasRoom text.old most_filter }
    ensures text { text.new ≡ text.old ++ spaced (filter_words parent major filter.now) }
    ensures short { GrowsBy text.old text.new most_filter }
{
    put_handle(text, b"parent", parent);
    put_number(text, b"prio", u64::from(filter.prio.number()));
    put_protocol(text, filter.protocol);
    text.put(b" flower");
    put_keys(text, &filter.keys);
    let class = ClassId {
        major,
        minor: filter.minor,
    };
    put_class(text, b"classid", class);
}

/// The protocol of the packets.
fn put_protocol(text: &mut Text, protocol: Protocol)
    requires { HasRoom text.old most_protocol }
    ensures text { text.new ≡ text.old ++ spaced (codes "protocol" ∷ protocol_word protocol ∷ []) }
    ensures short { GrowsBy text.old text.new most_protocol }
{
    text.put(b" protocol ");
    match protocol {
        Protocol::All => text.put(b"all"),
        Protocol::Ip => text.put(b"ip"),
        Protocol::Ipv6 => text.put(b"ipv6"),
    }
}

/// The keys that are given.
fn put_keys(text: &mut Text, keys: &FilterKeys)
    requires { HasRoom text.old most_keys }
    ensures text { text.new ≡ text.old ++ spaced (keys_words keys.now) }
    ensures short { GrowsBy text.old text.new most_keys }
{
    put_given_hexadecimal(text, b"ip_proto", keys.ip_proto);
    put_given_prefix(text, b"src_ip", keys.src_ip);
    put_given_prefix(text, b"dst_ip", keys.dst_ip);
    put_given_port(text, b"src_port", keys.src_port);
    put_given_port(text, b"dst_port", keys.dst_port);
}
