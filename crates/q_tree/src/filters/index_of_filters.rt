ghost use Rattle.std.specs.Prelude.{◌≡◌, ◌≤◌, IfOk, None, length};
ghost use Rattle.std.specs.Option.{IfSome};
ghost use Rattle.q_model.specs.Filters.{named_class};
ghost use Rattle.q_tree.specs.filters.IndexOfFilters.{AreOfManyShapes};
ghost use Rattle.q_tree.specs.filters.SomeIndex.{IsSomeIndexOf};

use crate::filters::field_index::FieldIndex;
use crate::filters::filter_index::FilterIndex;
use crate::filters::masked_filter::MaskedFilter;
use q_model::Minor;
use q_packet::KeptPacket;
use std::alloc::{AllocError, Global};

/// Fewer filters that compare many different things are compared one by one.
const FEWEST: usize = 17;

/// The most filters of an index.
pub(crate) const MOST: usize = 256;

/// By which a packet finds its filter: a hash of what is compared where many filters compare the same, and each field by itself
/// where they compare many different things.
#[derive(Drop)]
pub(crate) enum IndexOfFilters {
    ByShape(FilterIndex),
    ByField(FieldIndex),
}

impl IndexOfFilters {
    /// That of these filters, in the order in which they are asked. `None` for fewer than 9 filters, for fewer than 17 of which fewer than
    /// four on average compare the same, and for more than 256.
    ///
    /// # Errors
    ///
    /// `AllocError` if an allocation fails.
    pub(crate) fn new(
        alloc: Global,
        filters: &[MaskedFilter],
    ) -> Result<Option<IndexOfFilters>, AllocError>
        ensures index { IfOk result (λ made. IfSome made (λ index. IsSomeIndexOf index filters.now)) }
        ensures none { IfOk result (λ made. made ≡ None → 9 ≤ length filters.now → length filters.now ≤ 256 → AreOfManyShapes filters.now) }
        ensures few { IfOk result (λ made. made ≡ None → length filters.now ≤ 256 → length filters.now ≤ 16) }
    {
        if let Some(index) = FilterIndex::new(alloc, filters)? {
            return Ok(Some(IndexOfFilters::ByShape(index)));
        }
        if filters.len() < FEWEST || filters.len() > MOST {
            return Ok(None);
        }
        let index = FieldIndex::new(alloc, filters)?;
        Ok(Some(IndexOfFilters::ByField(index)))
    }

    /// The class that the first matching filter names.
    #[inline(never)]
    pub(crate) fn named_class(&self, filters: &[MaskedFilter], packet: &KeptPacket) -> Option<Minor>
        requires { IsSomeIndexOf self.now filters.now }
        ensures { result ≡ named_class filters.now packet.now }
    {
        match self {
            IndexOfFilters::ByShape(index) => return index.named_class(filters, packet),
            IndexOfFilters::ByField(index) => return index.named_class(filters, packet),
        }
    }
}
