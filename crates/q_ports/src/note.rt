ghost use Rattle.std.specs.Prelude.{◌≡◌, ◌<◌, ◌++◌, ◌∷◌, [], length, MatchBool};
ghost use mathlib.Core.List.{IsPrefix};
ghost use Rattle.q_ports.specs.Rows.{MayFollow};
ghost use Rattle.q_ports.specs.Rules.{head_of};

use crate::book_rule::{Add, BookRule, Nothing};
use logbook::{Offer, Seen, Start, Word};
use q_device::Row;
use std::marker::Model;
use std::sync::Wait;

/// The word that a book of rows keeps: how many rows its history has.
pub type Head = Word<Row, u64, BookRule>;

/// How far the history of a device's row had come: the number of its rows, and none of them.
///
/// The history itself exists in proofs alone. A contract sees the book and all rows up to there.
#[derive(Drop)]
pub struct Note {
    count: u64,
    seen: Seen<Row, u64, BookRule>,
}

impl Model for Note {
    ghost use Rattle.std.specs.Prelude.{◌≡◌, length};
    ghost use Rattle.q_ports.specs.Rows.{front_seen, RowHistorySeen};

    ghost Value = { RowHistorySeen };

    ghost view = { λ n. front_seen n.seen.book n.seen.log };

    ghost invariant = { λ n. n.count ≡ length n.seen.log };
}

impl Note {
    /// An empty history, with its word.
    pub(crate) fn open() -> (Note, Head)
        ensures rows { result.0.rows ≡ [] }
        ensures head { result.1 ≡ head_of result.0.book }
    {
        let (seen, mut first, _second) = Seen::open(Start::alone(), 0, 0);
        (Note { count: 0, seen }, Word::tracked(0, &mut first))
    }

    /// A copy.
    pub(crate) fn again(&self) -> Note
        ensures { result ≡ self.now }
    {
        Note {
            count: self.count,
            seen: self.seen.again(),
        }
    }

    /// Whether the rows of this one begin those of the other, as they do but where they are more.
    pub(crate) fn begins(&self, other: &Note) -> bool
        requires { other.now.book ≡ self.now.book }
        ensures { MatchBool result (IsPrefix self.now.rows other.now.rows) (length other.now.rows < length self.now.rows) }
    {
        let mut both = self.seen.again();
        both.learn(&other.seen);
        self.count <= other.count
    }

    /// The longer of two beginnings of one history, which the other begins.
    pub(crate) fn longer(&self, other: &Note) -> Note
        requires { other.now.book ≡ self.now.book }
        ensures book { result.book ≡ self.now.book }
        ensures this { IsPrefix self.now.rows result.rows }
        ensures that { IsPrefix other.now.rows result.rows }
    {
        let mut both = self.seen.again();
        both.learn(&other.seen);
        if self.count < other.count {
            other.again()
        } else {
            self.again()
        }
    }

    /// Adds a row to the history, of which these are all rows. It would wait for ever where another had added one, or where there
    /// are 2^64 - 1.
    pub(crate) fn add<R: Wait>(&mut self, rt: &R, head: &Head, row: Row)
        requires head { head.now ≡ head_of self.old.book }
        requires follows { MayFollow self.old.rows row }
        ensures book { self.new.book ≡ self.old.book }
        ensures rows { self.new.rows ≡ self.old.rows ++ row ∷ [] }
    {
        for _try in rt.forever() {
            if self.try_add(head, row) {
                return;
            }
        }
        unreachable!()
    }

    // Adds a row to the history. Nothing has changed where the answer is `false`: another has added one, or there are 2^64 - 1.
    fn try_add(&mut self, head: &Head, row: Row) -> bool
        requires head { head.now ≡ head_of self.old.book }
        requires follows { MayFollow self.old.rows row }
        ensures book { self.new.book ≡ self.old.book }
        ensures rows { MatchBool result (self.new.rows ≡ self.old.rows ++ row ∷ []) (self.new ≡ self.old) }
    {
        let Some(more) = self.count.checked_add(1) else {
            return false;
        };
        let mut seen = self.seen.again();
        let mut offer: Offer<Row, u64, BookRule, Nothing> = seen.plain::<Nothing, Row, Add>(&row);
        let mut pen = seen.no_pen();
        let count = self.count;
        let found = head.compare_exchange::<Add, Nothing>(
            count, more, &mut seen, &mut offer, &mut pen,
        );
        if found != count {
            return false;
        }
        self.count = more;
        self.seen = seen;
        true
    }
}
