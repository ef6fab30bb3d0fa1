//! The text of a filter.
ghost use Rattle.std.specs.Prelude.{◌≡◌, ◌+◌, ◌≤◌, ◌%◌, ◌++◌, codes, length, decimal};
ghost use Rattle.q_show.specs.Lengths.{GrowsBy, HasRoom, most_decimal, most_filter, most_into, most_ip_proto, most_keys, most_matches, most_name, most_port, most_prefix, most_protocol};
ghost use Rattle.q_show.specs.ShowText.{filter_line, given, hex, into_text, keys_text, matches_text, prefix_text, protocol_text};

use crate::address::put_address;
use crate::class::put_class_id;
use crate::text::Text;
use q_model::{ClassId, FilterKeys, FilterView, IpPrefix, Protocol};

/// A filter on its line.
pub fn put_filter(text: &mut Text, filter: &FilterView)
    requires { HasRoom text.old most_filter }
    ensures { text.new ≡ text.old ++ filter_line filter.now }
{
    put_matches(text, filter);
    put_keys(text, &filter.filter.keys);
    put_into(text, filter);
    text.put(b"\n");
}

/// The node that has the filter, its priority, and the protocol of the packets that it tests.
fn put_matches(text: &mut Text, filter: &FilterView)
    requires { HasRoom text.old most_matches }
    ensures text { text.new ≡ text.old ++ matches_text filter.now }
    ensures short { GrowsBy text.old text.new most_matches }
{
    text.put(b"filter parent ");
    text.put_hexadecimal(filter.parent.major());
    text.put(b": prio ");
    text.put_number(u64::from(filter.filter.prio.number()));
    text.put(b" protocol ");
    put_protocol(text, filter.filter.protocol);
}

/// The class that it puts its packets into.
fn put_into(text: &mut Text, filter: &FilterView)
    requires { HasRoom text.old most_into }
    ensures text { text.new ≡ text.old ++ into_text filter.now }
    ensures short { GrowsBy text.old text.new most_into }
{
    text.put(b" classid ");
    let class = ClassId {
        major: filter.parent,
        minor: filter.filter.minor,
    };
    put_class_id(text, class);
}

/// The name of a protocol.
fn put_protocol(text: &mut Text, protocol: Protocol)
    requires { HasRoom text.old most_protocol }
    ensures text { text.new ≡ text.old ++ protocol_text protocol }
    ensures short { GrowsBy text.old text.new most_protocol }
{
    match protocol {
        Protocol::All => text.put(b"all"),
        Protocol::Ip => text.put(b"ip"),
        Protocol::Ipv6 => text.put(b"ipv6"),
    }
}

/// The keys that were given.
fn put_keys(text: &mut Text, keys: &FilterKeys)
    requires { HasRoom text.old most_keys }
    ensures text { text.new ≡ text.old ++ keys_text keys.now }
    ensures short { GrowsBy text.old text.new most_keys }
{
    put_ip_proto(text, keys.ip_proto);
    put_prefix(text, b"src_ip", keys.src_ip);
    put_prefix(text, b"dst_ip", keys.dst_ip);
    put_port(text, b"src_port", keys.src_port);
    put_port(text, b"dst_port", keys.dst_port);
}

/// The protocol above IP, in hexadecimal, where it was given.
fn put_ip_proto(text: &mut Text, proto: Option<u8>)
    requires { HasRoom text.old most_ip_proto }
    ensures text { text.new ≡ text.old ++ given (codes "ip_proto") hex proto }
    ensures short { GrowsBy text.old text.new most_ip_proto }
{
    if let Some(proto) = proto {
        text.put_name(b"ip_proto");
        text.put_hexadecimal(u16::from(proto));
    }
}

/// A port, where it was given.
fn put_port(text: &mut Text, name: &[u8], port: Option<u16>)
    requires room { HasRoom text.old most_port }
    requires name { length name.now ≤ most_name }
    ensures text { text.new ≡ text.old ++ given name.now decimal port }
    ensures short { GrowsBy text.old text.new most_port }
{
    if let Some(port) = port {
        text.put_name(name);
        text.put_number(u64::from(port));
    }
}

/// A prefix, where it was given.
fn put_prefix(text: &mut Text, name: &[u8], prefix: Option<IpPrefix>)
    requires room { HasRoom text.old most_prefix }
    requires name { length name.now ≤ most_name }
    ensures text { text.new ≡ text.old ++ given name.now prefix_text prefix }
    ensures short { GrowsBy text.old text.new most_prefix }
{
    if let Some(prefix) = prefix {
        text.put_name(name);
        put_address(text, prefix.version, prefix.address);
        text.put(b"/");
        text.put_number(u64::from(prefix.len));
    }
}
