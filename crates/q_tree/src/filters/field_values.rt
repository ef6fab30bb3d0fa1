ghost use Rattle.std.specs.Prelude.{◌≡◌};
ghost use Rattle.std.specs.Option.{option_map};
ghost use Rattle.q_model.specs.Options.{bits_of};
ghost use Rattle.q_tree.specs.filters.FieldValues.{addresses_from, common_values, family_values, number_values, prefix_family, prefix_values, protocol_family};

use crate::filters::field_sets::Values;
use q_model::{Filter, IpPrefix, IpVersion, Protocol};

// Every value of a field.
const ALL: Values = Values {
    first: 0,
    last: u128::MAX,
};

/// The numbers of 8 bits that a key of a filter takes: all, where none is given.
pub(crate) fn of_byte(wanted: Option<u8>) -> Values
    ensures { result ≡ number_values wanted }
{
    match wanted {
        None => ALL,
        Some(number) => of_number(u128::from(number)),
    }
}

/// The ports that a key of a filter takes: all, where none is given.
pub(crate) fn of_port(wanted: Option<u16>) -> Values
    ensures { result ≡ number_values wanted }
{
    match wanted {
        None => ALL,
        Some(number) => of_number(u128::from(number)),
    }
}

/// The addresses that begin as a prefix does: all, where none is given.
pub(crate) fn of_prefix(wanted: Option<IpPrefix>) -> Values
    ensures { result ≡ prefix_values wanted }
{
    let Some(prefix) = wanted else {
        return ALL;
    };
    prefix.ranges();
    let rest = bits_of(prefix.version) - u32::from(prefix.len);
    // All 128 bits are free.
    if rest >= 128 {
        return ALL;
    }
    let first = prefix.address >> rest << rest;
    Values {
        first,
        last: first + ((1 << rest) - 1),
    }
}

/// The families that a filter takes: those of its protocol and of its prefixes.
pub(crate) fn of_family(filter: &Filter) -> Values
    ensures { result ≡ family_values filter.now }
{
    let protocol = of_byte(protocol_family(filter.protocol));
    let src = of_byte(prefix_family(filter.keys.src_ip));
    let dst = of_byte(prefix_family(filter.keys.dst_ip));
    common(protocol, common(src, dst))
}

// This number alone.
fn of_number(number: u128) -> Values
    ensures { result ≡ record { first = number; last = number } }
{
    Values {
        first: number,
        last: number,
    }
}

// The values that are in both.
fn common(a: Values, b: Values) -> Values
    ensures { result ≡ common_values a b }
{
    Values {
        first: a.first.max(b.first),
        last: a.last.min(b.last),
    }
}

// The family of a protocol.
fn protocol_family(protocol: Protocol) -> Option<u8>
    ensures { result ≡ protocol_family protocol }
{
    match protocol {
        Protocol::All => None,
        Protocol::Ip => Some(4),
        Protocol::Ipv6 => Some(6),
    }
}

// The family of a prefix.
fn prefix_family(prefix: Option<IpPrefix>) -> Option<u8>
    ensures { result ≡ prefix_family prefix }
{
    match prefix?.version {
        IpVersion::V4 => Some(4),
        IpVersion::V6 => Some(6),
    }
}

// The bits of an address of this version.
fn bits_of(version: IpVersion) -> u32
    ensures { result ≡ bits_of version }
{
    match version {
        IpVersion::V4 => 32,
        IpVersion::V6 => 128,
    }
}
