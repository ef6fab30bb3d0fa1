ghost use Rattle.std.specs.Prelude.{◌≡◌};
ghost use Rattle.q_model.specs.Filters.{has_prefix, named_class};
ghost use Rattle.q_packet.specs.Key.{IsKey};
ghost use Rattle.q_tree.specs.filters.Matching.{before_taker, packed, takes_addresses, word_of};

use crate::filters::masked_filter::MaskedFilter;
use q_model::{FilterKeys, IpPrefix, IpVersion, Minor};
use q_packet::{FlowKey, KeptPacket};

/// Whether an address of the packet begins as the prefix does, and is of its version.
fn has_prefix(prefix: &IpPrefix, key: &FlowKey, address: u128) -> bool
    ensures { result ≡ has_prefix prefix.now key.now address }
{
    let (family, bits) = match prefix.version {
        IpVersion::V4 => (4, 32u32),
        IpVersion::V6 => (6, 128u32),
    };
    // No bit is left to compare where all 128 are shifted out.
    let rest = bits - u32::from(prefix.len);
    key.family == family
        && address.checked_shr(rest).unwrap_or(0) == prefix.address.checked_shr(rest).unwrap_or(0)
}

/// The numbers of a key that a filter compares at once, as one word: ports, protocol and family.
#[inline(always)]
pub(crate) fn word_of(key: &FlowKey) -> u64
    ensures word { result ≡ word_of key.now }
    ensures ranged { IsKey key.now }
{
    packed(key.sport, key.dport, key.proto, key.family)
}

/// These numbers side by side in one word.
#[inline(always)]
pub(crate) fn packed(sport: u16, dport: u16, proto: u8, family: u8) -> u64
    ensures { result ≡ packed sport dport proto family }
{
    u64::from(sport)
        + u64::from(dport) * 0x1_0000
        + u64::from(proto) * 0x1_0000_0000
        + u64::from(family) * 0x100_0000_0000
}

/// Whether the packet agrees with each address that is given.
pub(crate) fn takes_addresses(keys: &FilterKeys, key: &FlowKey) -> bool
    ensures { result ≡ takes_addresses keys.now key.now }
{
    if !keys
        .src_ip
        .map_or(true, |prefix| has_prefix(&prefix, key, key.src))
    {
        return false;
    }
    keys.dst_ip
        .map_or(true, |prefix| has_prefix(&prefix, key, key.dst))
}

/// The class that the first matching filter names. Filters are in the order in which they are asked.
pub(crate) fn named_class(filters: &[MaskedFilter], packet: &KeptPacket) -> Option<Minor>
    ensures { result ≡ named_class filters.now packet.now }
{
    let key = packet.key();
    let first = before_taker(filters, &key);
    if first >= filters.len() {
        return None;
    }
    let filter = filters[first].filter();
    if filter.keys.src_ip.is_none() && filter.keys.dst_ip.is_none() {
        return Some(filter.minor);
    }
    named_by_address(filters, packet)
}

// How many filters are before the first that takes the numbers of a key; all, where none does. All are compared, from the last
// to the first, with no branch between: at which of them a search would end is what a processor cannot foresee.
#[inline(always)]
fn before_taker(filters: &[MaskedFilter], key: &FlowKey) -> usize
    ensures { result ≡ before_taker key.now filters.now }
{
    let word = word_of(key);
    let mut first = filters.len();
    let mut place = filters.len();
    while place > 0 {
        place -= 1;
        if filters[place].takes_numbers(word, key) {
            first = place;
        }
    }
    first
}

// The same where addresses are asked.
#[cold]
#[inline(never)]
fn named_by_address(filters: &[MaskedFilter], packet: &KeptPacket) -> Option<Minor>
    ensures { result ≡ named_class filters.now packet.now }
{
    filters
        .iter()
        .find(|filter| filter.matches(packet))
        .map(|filter| filter.filter().minor)
}
