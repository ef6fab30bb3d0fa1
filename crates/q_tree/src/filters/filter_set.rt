ghost use Rattle.std.specs.Prelude.{◌≡◌, ◌==◌, ◌<◌, ◌≤◌, ◌&&◌, ◌||◌, false, true, ℕ};
ghost use Rattle.q_tree.specs.filters.FilterSets.{holds};
ghost use Rattle.q_tree.specs.declared.filters.filter_set.FilterSet as specs;

/// Which of up to 256 filters, by their places: a bit for each.
#[derive(Clone, Copy, PartialEq, Eq)]
pub(crate) struct FilterSet {
    low: u128,
    high: u128,
}

/// None of them.
pub(crate) const NO_FILTER: FilterSet = FilterSet { low: 0, high: 0 };

impl FilterSet {
    /// These, and the filter in this place.
    pub(crate) fn with(self, place: usize) -> FilterSet
        requires { place < 256 }
        ensures { (j : ℕ) → holds result j ≡ (j == place || holds self j) }
    {
        if place < 128 {
            return FilterSet {
                low: self.low | 1 << place,
                high: self.high,
            };
        }
        FilterSet {
            low: self.low,
            high: self.high | 1 << (place - 128),
        }
    }

    /// Those that are in both.
    #[inline(always)]
    pub(crate) fn both(self, other: FilterSet) -> FilterSet
        ensures { (j : ℕ) → holds result j ≡ (holds self j && holds other j) }
    {
        FilterSet {
            low: self.low & other.low,
            high: self.high & other.high,
        }
    }

    /// The place of the first of them; 256 where there is none.
    #[inline(always)]
    pub(crate) fn first(self) -> usize
        ensures there { result < 256 → holds self result ≡ true }
        ensures before { (j : ℕ) → j < result → holds self j ≡ false }
    {
        if self.low != 0 {
            return self.low.trailing_zeros() as usize;
        }
        self.high.trailing_zeros() as usize + 128
    }
}
