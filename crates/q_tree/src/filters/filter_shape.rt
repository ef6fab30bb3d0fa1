ghost use Rattle.std.specs.Prelude.{◌≡◌, ◌<◌, ◌/◌, ◌^◌};
ghost use Rattle.q_model.specs.Options.{bits_of};
ghost use Rattle.q_model.specs.Ranges.{IsFilter};
ghost use Rattle.q_tree.specs.filters.FilterShapes.{bucket, folded, parts_of, parts_wanted, prefix_wanted, rest_of, shape_of, spread, with_addresses};
ghost use Rattle.q_tree.specs.filters.Matching.{word_of};

use crate::filters::masked_filter::MaskedFilter;
use q_model::{IpPrefix, IpVersion};
use q_packet::FlowKey;

/// What a filter compares of a key: bits of the word of its numbers, and all but so many low bits of each address.
#[derive(Clone, Copy, PartialEq, Eq)]
pub(crate) struct FilterShape {
    mask: u64,
    src_rest: u32,
    dst_rest: u32,
}

impl FilterShape {
    /// That of a filter.
    pub(crate) fn of(filter: &MaskedFilter) -> FilterShape
        ensures shape { result ≡ shape_of filter.now }
        ensures range { IsFilter filter.now }
    {
        filter.filter().ranges();
        let keys = &filter.filter().keys;
        FilterShape {
            mask: filter.mask(),
            src_rest: rest_of(keys.src_ip),
            dst_rest: rest_of(keys.dst_ip),
        }
    }

    /// The bucket of a key, of whose numbers this is the word: keys that agree in all that is compared are in one.
    #[inline(always)]
    pub(crate) fn bucket(&self, word: u64, key: &FlowKey) -> usize
        requires { word ≡ word_of key.now }
        ensures value { result ≡ bucket (parts_of self.now key.now) }
        ensures small { result < 256 }
    {
        // An address fits its bits.
        let _ = (key.src, key.dst);
        if self.src_rest == 128 && self.dst_rest == 128 {
            return spread(word & self.mask);
        }
        let src = without_rest(key.src, self.src_rest);
        let dst = without_rest(key.dst, self.dst_rest);
        spread(with_addresses(word & self.mask, src, dst))
    }
}

/// The bucket of the keys that a filter takes.
pub(crate) fn bucket_of(filter: &MaskedFilter) -> usize
    ensures value { result ≡ bucket (parts_wanted filter.now) }
    ensures small { result < 256 }
{
    let keys = &filter.filter().keys;
    let src = wanted(keys.src_ip);
    let dst = wanted(keys.dst_ip);
    spread(with_addresses(filter.wanted(), src, dst))
}

// The bits of an address of this version.
fn bits_of(version: IpVersion) -> u32
    ensures { result ≡ bits_of version }
{
    match version {
        IpVersion::V4 => 32,
        IpVersion::V6 => 128,
    }
}

// How many low bits of an address are not compared.
fn rest_of(prefix: Option<IpPrefix>) -> u32
    ensures { result ≡ rest_of prefix }
{
    match prefix {
        None => 128,
        Some(prefix) => bits_of(prefix.version) - u32::from(prefix.len),
    }
}

// What the others have to be.
fn wanted(prefix: Option<IpPrefix>) -> u128
    ensures { result ≡ prefix_wanted prefix }
{
    match prefix {
        None => 0,
        Some(prefix) => {
            let rest = bits_of(prefix.version) - u32::from(prefix.len);
            without_rest(prefix.address, rest)
        }
    }
}

// An address without so many of its low bits.
fn without_rest(address: u128, rest: u32) -> u128
    ensures { result ≡ address / 2 ^ rest }
{
    // No bit is left where all 128 are shifted out.
    if rest >= 128 {
        return 0;
    }
    address >> rest
}

// One of 256 for a word.
#[inline(always)]
#[tactic(auto, unfolding(crate::specs::filters::FilterShapes::spread))]
fn spread(word: u64) -> usize
    ensures value { result ≡ spread word }
    ensures small { result < 256 }
{
    (word.wrapping_mul(0x9e37_79b9_7f4a_7c15) >> 56) as usize
}

// The word with both addresses.
#[tactic(auto, unfolding(crate::specs::filters::FilterShapes::with_addresses))]
fn with_addresses(word: u64, src: u128, dst: u128) -> u64
    ensures { result ≡ with_addresses word src dst }
{
    word.wrapping_add(folded(src).wrapping_mul(0xc4ce_b9fe_1a85_ec53))
        .wrapping_add(folded(dst).wrapping_mul(0x2545_f491_4f6c_dd1d))
}

// An address in 64 bits.
#[tactic(auto, unfolding(crate::specs::filters::FilterShapes::folded))]
fn folded(address: u128) -> u64
    ensures { result ≡ folded address }
{
    let high = (address >> 64) as u64;
    let low = (address % 0x1_0000_0000_0000_0000) as u64;
    low.wrapping_add(high.wrapping_mul(0xff51_afd7_ed55_8ccd))
}
