ghost use Rattle.std.specs.Prelude.{◌≡◌, ◌<◌, ◌≤◌, ◌++◌, ◌∷◌, [], IfOk, List, OnErr, OnOk, length, slice_get};
ghost use Rattle.std.specs.List.{find};
ghost use Rattle.q_model.specs.Filters.{matches, named_class};
ghost use Rattle.q_model.specs.declared.filter.Filter.{Filter};
ghost use Rattle.q_tree.specs.filters.IndexByField.{IsCutFor, IsFieldIndexOf};

use crate::filters::field_sets::FieldSets;
use crate::filters::field_values::{of_byte, of_family, of_port, of_prefix};
use crate::filters::masked_filter::MaskedFilter;
use q_model::Minor;
use q_packet::KeptPacket;
use std::alloc::{AllocError, Global};

/// The filters of a node by the fields of a key: for each value of a field the set of those that take it. A filter takes a packet if
/// it is in the sets of all fields, so the first that is in all of them is found without comparing (T. V. Lakshman and D. Stiliadis, 1998).
#[derive(Drop)]
pub(crate) struct FieldIndex {
    families: FieldSets,
    protos: FieldSets,
    srcs: FieldSets,
    dsts: FieldSets,
    sports: FieldSets,
    dports: FieldSets,
}

impl FieldIndex {
    /// That of these filters, at most 256, in the order in which they are asked.
    ///
    /// # Errors
    ///
    /// `AllocError` if an allocation fails.
    pub(crate) fn new(alloc: Global, filters: &[MaskedFilter]) -> Result<FieldIndex, AllocError>
        requires { length filters.now ≤ 256 }
        ensures { IfOk result (λ made. IsFieldIndexOf made filters.now) }
    {
        let mut index = FieldIndex::none(alloc)?;
        index.add_all(filters)?;
        Ok(index)
    }

    // With no filter.
    fn none(alloc: Global) -> Result<FieldIndex, AllocError>
        ensures { IfOk result (λ made. IsFieldIndexOf made []) }
    {
        let families = FieldSets::new(alloc)?;
        let protos = FieldSets::new(alloc)?;
        let srcs = FieldSets::new(alloc)?;
        let dsts = FieldSets::new(alloc)?;
        let sports = FieldSets::new(alloc)?;
        let dports = FieldSets::new(alloc)?;
        Ok(FieldIndex {
            families,
            protos,
            srcs,
            dsts,
            sports,
            dports,
        })
    }

    // Adds filters where there is none.
    fn add_all(&mut self, filters: &[MaskedFilter]) -> Result<(), AllocError>
        requires few { length filters.now ≤ 256 }
        requires none { IsFieldIndexOf self.old [] }
        ensures { OnOk result (IsFieldIndexOf self.new filters.now) }
    {
        for place in 0..filters.len() {
            self.add(place, &filters[place])?;
        }
        Ok(())
    }

    /// Adds a filter behind all others, of which there are so many.
    ///
    /// # Errors
    ///
    /// `AllocError` if an allocation fails. The index is still that of the others.
    pub(crate) fn add(&mut self, place: usize, filter: &MaskedFilter) -> Result<(), AllocError>
        requires few { place < 256 }
        ensures added { (filters : List Filter) → IsFieldIndexOf self.old filters → length filters ≡ place → OnOk result (IsFieldIndexOf self.new (filters ++ filter.now ∷ [])) }
        ensures kept { (filters : List Filter) → IsFieldIndexOf self.old filters → OnErr result (IsFieldIndexOf self.new filters) }
    {
        self.cut(filter)?;
        self.mark(place, filter);
        Ok(())
    }

    // Makes room for a filter in each field.
    fn cut(&mut self, filter: &MaskedFilter) -> Result<(), AllocError>
        ensures kept { (filters : List Filter) → IsFieldIndexOf self.old filters → IsFieldIndexOf self.new filters }
        ensures cut { OnOk result (IsCutFor self.new filter.now) }
    {
        let filter = filter.filter();
        let keys = &filter.keys;
        self.families.cut(of_family(filter))?;
        self.protos.cut(of_byte(keys.ip_proto))?;
        self.srcs.cut(of_prefix(keys.src_ip))?;
        self.dsts.cut(of_prefix(keys.dst_ip))?;
        self.sports.cut(of_port(keys.src_port))?;
        self.dports.cut(of_port(keys.dst_port))
    }

    // Adds a filter for which there is room.
    fn mark(&mut self, place: usize, filter: &MaskedFilter)
        requires few { place < 256 }
        requires cut { IsCutFor self.old filter.now }
        ensures { (filters : List Filter) → IsFieldIndexOf self.old filters → length filters ≡ place → IsFieldIndexOf self.new (filters ++ filter.now ∷ []) }
    {
        let filter = filter.filter();
        let keys = &filter.keys;
        self.families.mark(place, of_family(filter));
        self.protos.mark(place, of_byte(keys.ip_proto));
        self.srcs.mark(place, of_prefix(keys.src_ip));
        self.dsts.mark(place, of_prefix(keys.dst_ip));
        self.sports.mark(place, of_port(keys.src_port));
        self.dports.mark(place, of_port(keys.dst_port));
    }

    /// The class that the first matching filter names.
    #[inline(always)]
    pub(crate) fn named_class(&self, filters: &[MaskedFilter], packet: &KeptPacket) -> Option<Minor>
        requires { IsFieldIndexOf self.now filters.now }
        ensures { result ≡ named_class filters.now packet.now }
    {
        let filter = filters.get(self.first_match(packet))?;
        Some(filter.filter().minor)
    }

    // The place of the first filter that takes a packet; 256 where none does.
    #[inline(always)]
    fn first_match(&self, packet: &KeptPacket) -> usize
        ensures { (filters : List Filter) → IsFieldIndexOf self.now filters → slice_get filters result ≡ find (matches packet.now) filters }
    {
        let key = packet.key();
        let families = self.families.takers(u128::from(key.family));
        let protos = self.protos.takers(u128::from(key.proto));
        let srcs = self.srcs.takers(key.src);
        let dsts = self.dsts.takers(key.dst);
        let sports = self.sports.takers(u128::from(key.sport));
        let dports = self.dports.takers(u128::from(key.dport));
        let numbers = families.both(protos);
        let addresses = srcs.both(dsts);
        let ports = sports.both(dports);
        let places = addresses.both(ports);
        let all = numbers.both(places);
        all.first()
    }
}
