ghost use Rattle.std.specs.Prelude.{◌≡◌};
ghost use Rattle.q_model.specs.Filters.{matches};
ghost use Rattle.q_tree.specs.filters.Matching.{mask_of, takes_numbers, wanted_of, word_of};

use crate::filters::matching::{packed, takes_addresses, word_of};
use q_model::{Filter, Protocol};
use q_packet::{FlowKey, KeptPacket};
use std::marker::Model;

/// A filter, and what it asks of ports, protocol and family as one word under a mask: one comparison says whether a packet
/// agrees with all of these.
///
/// A contract sees the filter.
#[derive(Drop)]
pub(crate) struct MaskedFilter {
    mask: u64,
    wanted: u64,
    filter: Filter,
}

impl Model for MaskedFilter {
    ghost use Rattle.q_model.specs.declared.filter.Filter.{Filter};

    ghost Value = { Filter };

    ghost use Rattle.std.specs.Prelude.{◌≡◌};
    ghost use Rattle.q_model.specs.Ranges.{IsFilter};
    ghost use Rattle.q_tree.specs.filters.Matching.{mask_of, wanted_of};

    ghost view = { λ m. m.filter };

    ghost invariant = { λ m. (m.mask ≡ mask_of m.filter) × (m.wanted ≡ wanted_of m.filter) × IsFilter m.filter };
}

impl MaskedFilter {
    /// The filter with its word and mask.
    pub(crate) fn new(filter: Filter) -> MaskedFilter
        ensures { result ≡ filter }
    {
        filter.ranges();
        MaskedFilter {
            mask: mask_of(&filter),
            wanted: wanted_of(&filter),
            filter,
        }
    }

    /// The bits of a key's numbers that it compares.
    #[inline(always)]
    pub(crate) fn mask(&self) -> u64
        ensures { result ≡ mask_of self.now }
    {
        self.mask
    }

    /// What these bits have to be.
    #[inline(always)]
    pub(crate) fn wanted(&self) -> u64
        ensures { result ≡ wanted_of self.now }
    {
        self.wanted
    }

    /// The filter itself.
    #[inline(always)]
    pub(crate) fn filter(&self) -> &Filter
        ensures { result.now ≡ self.now }
    {
        &self.filter
    }

    /// Whether a key, of which this is the word, has the filter's protocol, and each number that is given.
    #[inline(always)]
    pub(crate) fn takes_numbers(&self, word: u64, key: &FlowKey) -> bool
        requires { word ≡ word_of key.now }
        ensures { result ≡ takes_numbers self.now key.now }
    {
        // The key's numbers fit their fields.
        let _ = (key.sport, key.dport, key.proto, key.family);
        word & self.mask == self.wanted
    }

    /// Whether it takes a packet (tc-flower(8)): whether the packet is of its protocol, and agrees with each key that is given.
    pub(crate) fn matches(&self, packet: &KeptPacket) -> bool
        ensures { result ≡ matches packet.now self.now }
    {
        let key = packet.key();
        self.takes_numbers(word_of(&key), &key) && takes_addresses(&self.filter.keys, &key)
    }
}

// The bits that are compared: those of the numbers that are given.
fn mask_of(filter: &Filter) -> u64
    ensures { result ≡ mask_of filter.now }
{
    let keys = &filter.keys;
    packed(
        keys.src_port.map_or(0, |_| u16::MAX),
        keys.dst_port.map_or(0, |_| u16::MAX),
        keys.ip_proto.map_or(0, |_| u8::MAX),
        match filter.protocol {
            Protocol::All => 0,
            Protocol::Ip | Protocol::Ipv6 => u8::MAX,
        },
    )
}

// What these bits are to be.
fn wanted_of(filter: &Filter) -> u64
    ensures { result ≡ wanted_of filter.now }
{
    let keys = &filter.keys;
    packed(
        keys.src_port.unwrap_or(0),
        keys.dst_port.unwrap_or(0),
        keys.ip_proto.unwrap_or(0),
        match filter.protocol {
            Protocol::All => 0,
            Protocol::Ip => 4,
            Protocol::Ipv6 => 6,
        },
    )
}
