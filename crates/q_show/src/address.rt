//! Addresses.
ghost use Rattle.std.specs.Prelude.{◌≡◌, ◌≤◌, ◌%◌, ◌++◌, decimal};
ghost use Rattle.q_model.specs.declared.ip_version.IpVersion.TheVariants.{V4, V6};
ghost use Rattle.q_show.specs.Lengths.{GrowsBy, HasRoom, most_decimal, most_hex, most_ipv4, most_ipv6};
ghost use Rattle.q_show.specs.ShowText.{address_text, hex};

use crate::text::Text;
use q_model::IpVersion;

/// An IPv4 address as its four numbers in decimal, joined by points; an IPv6 address as its eight groups in hexadecimal without
/// leading zeros, joined by colons, none of them left out.
pub fn put_address(text: &mut Text, version: IpVersion, address: u128)
    requires { HasRoom text.old most_ipv4 }
    ensures text { text.new ≡ text.old ++ address_text version address }
    ensures short { GrowsBy text.old text.new most_ipv4 }
{
    match version {
        IpVersion::V4 => put_ipv4(text, address),
        IpVersion::V6 => put_ipv6(text, address),
    }
}

/// Four numbers joined by points.
fn put_ipv4(text: &mut Text, address: u128)
    requires { HasRoom text.old most_ipv4 }
    ensures text { text.new ≡ text.old ++ address_text V4 address }
    ensures short { GrowsBy text.old text.new most_ipv4 }
{
    put_octet(text, address >> 24);
    text.put(b".");
    put_octet(text, address >> 16);
    text.put(b".");
    put_octet(text, address >> 8);
    text.put(b".");
    put_octet(text, address);
}

/// The last eight bits of a number, in decimal.
fn put_octet(text: &mut Text, bits: u128)
    requires { HasRoom text.old most_decimal }
    ensures text { text.new ≡ text.old ++ decimal (bits % 256) }
    ensures short { GrowsBy text.old text.new most_decimal }
{
    text.put_number((bits % 256) as u64);
}

/// Eight groups joined by colons.
fn put_ipv6(text: &mut Text, address: u128)
    requires { HasRoom text.old most_ipv6 }
    ensures text { text.new ≡ text.old ++ address_text V6 address }
    ensures short { GrowsBy text.old text.new most_ipv6 }
{
    put_group(text, address >> 112);
    text.put(b":");
    put_group(text, address >> 96);
    text.put(b":");
    put_group(text, address >> 80);
    text.put(b":");
    put_group(text, address >> 64);
    text.put(b":");
    put_group(text, address >> 48);
    text.put(b":");
    put_group(text, address >> 32);
    text.put(b":");
    put_group(text, address >> 16);
    text.put(b":");
    put_group(text, address);
}

/// The last sixteen bits of a number, in hexadecimal.
fn put_group(text: &mut Text, bits: u128)
    requires { HasRoom text.old most_hex }
    ensures text { text.new ≡ text.old ++ hex (bits % 65536) }
    ensures short { GrowsBy text.old text.new most_hex }
{
    text.put_hexadecimal((bits % 65536) as u16);
}
