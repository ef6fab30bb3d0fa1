//! What holds of every bucket over time. Each law is the contract of a function that does nothing, and is about the definitions
//! of `specs/Level.antt`, which the contracts of [`Bucket`](crate::Bucket) cite too.
ghost use Rattle.q_bucket.specs.Laws.{StretchIsBounded, NeverOverBurst, LevelRises, FullStaysFull, FullAgain, NothingIsLost};

/// Over every list of spends, of any lengths and at times that do not fall: the bytes that go in an interval, its ends
/// included, are at most the burst and what the rate brings in that interval, in the exact units.
pub fn stretch_is_bounded()
    ensures { StretchIsBounded }
{}

/// A level is never above the burst.
pub fn never_over_burst()
    ensures { NeverOverBurst }
{}

/// A level never falls by itself.
pub fn level_rises()
    ensures { LevelRises }
{}

/// A full bucket that is left alone is full, and never fuller.
pub fn full_stays_full()
    ensures { FullStaysFull }
{}

/// Whatever it holds, a bucket that is left alone for as long as its rate takes to bring its burst is full again.
pub fn full_again()
    ensures { FullAgain }
{}

/// A bucket whose level is updated at some time in between has the same level later as one that is not: nothing is lost to rounding.
pub fn nothing_is_lost()
    ensures { NothingIsLost }
{}
