ghost use Rattle.std.specs.Prelude.{◌≡◌, ◌<◌, ◌≤◌, ◌++◌, ◌∷◌, [], IfOk, List, OnOk, Some, length, slice_get, suc, ℕ};
ghost use Rattle.q_tree.specs.filters.FieldSets.{AreMarked, IsCutBy, IsFieldOf, IsMarked, IsStart, takes_at};
ghost use Rattle.q_tree.specs.filters.FilterSets.{holds};
ghost use Rattle.q_tree.specs.declared.filters.field_sets.Piece as specs;
ghost use Rattle.q_tree.specs.declared.filters.field_sets.Values as specs2;

use crate::filters::filter_set::{FilterSet, NO_FILTER};
use std::alloc::{AllocError, Global};
use std::marker::Model;

/// The values from `first` to `last`; none, where `last` is below `first`.
#[derive(Clone, Copy, PartialEq, Eq)]
pub(crate) struct Values {
    pub(crate) first: u128,
    pub(crate) last: u128,
}

/// The values from `start` up to the start of the next piece, each of which the same filters take.
#[derive(Clone, Copy)]
pub(crate) struct Piece {
    start: u128,
    takers: FilterSet,
}

/// For each value of one field of a key the filters that take it.
///
/// A contract sees the pieces.
#[derive(Drop)]
pub(crate) struct FieldSets {
    pieces: Vec<Piece>,
}

impl Model for FieldSets {
    ghost use Rattle.std.specs.Prelude.{List};
    ghost use Rattle.q_tree.specs.declared.filters.field_sets.Piece.{Piece};
    ghost use Rattle.q_tree.specs.filters.FieldSets.{ArePieces};

    ghost Value = { List Piece };

    ghost view = { λ a. a.pieces.items };

    ghost invariant = { λ a. ArePieces a.pieces.items };
}

impl FieldSets {
    /// With no filter.
    ///
    /// # Errors
    ///
    /// `AllocError` if the allocation fails.
    pub(crate) fn new(alloc: Global) -> Result<FieldSets, AllocError>
        ensures { IfOk result (λ made. IsFieldOf made []) }
    {
        let mut pieces = Vec::new(alloc);
        pieces.push(Piece {
            start: 0,
            takers: NO_FILTER,
        })?;
        Ok(FieldSets { pieces })
    }

    /// The filters that take this value.
    #[inline(always)]
    pub(crate) fn takers(&self, value: u128) -> FilterSet
        ensures { (ranges : List specs2.Values) → IsFieldOf self.now ranges → (j : ℕ) → holds result j ≡ takes_at ranges j value }
    {
        self.pieces[self.piece_of(value)].takers
    }

    /// Makes room for a filter that takes these values.
    ///
    /// # Errors
    ///
    /// `AllocError` if an allocation fails. Each value has the takers that it had.
    pub(crate) fn cut(&mut self, values: Values) -> Result<(), AllocError>
        ensures kept { (ranges : List specs2.Values) → IsFieldOf self.old ranges → IsFieldOf self.new ranges }
        ensures cut { OnOk result (IsCutBy self.new values) }
    {
        self.cut_before(values.first)?;
        if values.last < u128::MAX {
            self.cut_before(values.last + 1)?;
        }
        Ok(())
    }

    /// Adds a filter that takes these values, for which room was made.
    pub(crate) fn mark(&mut self, place: usize, values: Values)
        requires few { place < 256 }
        requires cut { IsCutBy self.old values }
        ensures { (ranges : List specs2.Values) → IsFieldOf self.old ranges → length ranges ≡ place → IsFieldOf self.new (ranges ++ values ∷ []) }
    {
        mark_each(&mut self.pieces, place, values);
    }

    // The place of the piece that has this value.
    #[inline(always)]
    fn piece_of(&self, value: u128) -> usize
        ensures within { result < length self.now }
        ensures from { (p : specs.Piece) → slice_get self.now result ≡ Some p → p.start ≤ value }
        ensures before { (q : specs.Piece) → slice_get self.now (suc result) ≡ Some q → value < q.start }
    {
        let mut low = 0;
        let mut high = self.pieces.len();
        while high - low > 1 {
            let middle = low + (high - low) / 2;
            if self.pieces[middle].start <= value {
                low = middle;
            } else {
                high = middle;
            }
        }
        low
    }

    // Makes a piece begin at this value.
    fn cut_before(&mut self, value: u128) -> Result<(), AllocError>
        ensures kept { (ranges : List specs2.Values) → IsFieldOf self.old ranges → IsFieldOf self.new ranges }
        ensures starts { (x : ℕ) → IsStart self.old x → IsStart self.new x }
        ensures cut { OnOk result (IsStart self.new value) }
    {
        let place = self.piece_of(value);
        let Piece { start, takers } = self.pieces[place];
        if start == value {
            return Ok(());
        }
        let piece = Piece {
            start: value,
            takers,
        };
        self.pieces.insert(place + 1, piece)?;
        Ok(())
    }
}

// Each piece with the filter in this place, if that takes these values and the piece is of them.
fn mark_each(pieces: &mut Vec<Piece>, place: usize, values: Values)
    requires { place < 256 }
    ensures { AreMarked pieces.old.items pieces.new.items place values (length pieces.old.items) }
{
    for at in 0..pieces.len() {
        pieces[at] = pieces[at].marked(place, values);
    }
}

impl Piece {
    // The piece with the filter in this place, if that takes these values and the piece is of them.
    #[inline(always)]
    fn marked(self, place: usize, values: Values) -> Piece
        requires { place < 256 }
        ensures { IsMarked place values self result }
    {
        if self.start < values.first || self.start > values.last {
            return self;
        }
        Piece {
            start: self.start,
            takers: self.takers.with(place),
        }
    }
}
