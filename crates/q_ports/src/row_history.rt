ghost use Rattle.std.specs.Prelude.{◌≡◌, ◌++◌, ◌∷◌, [], ◌↔◌, IsTrue};
ghost use Rattle.q_device.specs.Counters.{IsNotBelow};
ghost use Rattle.q_ports.specs.Rows.{last_of, opening, IsLegal, IsNotLower, MayFollow};
ghost use Rattle.q_ports.specs.Rules.{head_of};

use crate::note::{Head, Note};
use q_device::{Row, Totals};
use std::marker::Model;
use std::sync::Wait;

/// A beginning of the history of a device's row, with its last row.
///
/// A contract sees the book and all rows.
#[derive(Drop)]
pub struct RowHistory {
    note: Note,
    last: Row,
}

impl Model for RowHistory {
    ghost use Rattle.std.specs.Prelude.{◌≡◌};
    ghost use Rattle.q_ports.specs.Rows.{last_of, RowHistorySeen, IsLegal};

    ghost Value = { RowHistorySeen };

    ghost view = { λ f. f.note };

    ghost invariant = { λ f. (f.last ≡ last_of f.note.rows) × IsLegal f.note.rows };
}

impl RowHistory {
    /// An empty history, with its word.
    pub(crate) fn open() -> (RowHistory, Head)
        ensures rows { result.0.rows ≡ [] }
        ensures head { result.1 ≡ head_of result.0.book }
    {
        let (note, head) = Note::open();
        let front = RowHistory {
            note,
            last: opening(),
        };
        (front, head)
    }

    /// The last row, and the opening one where there is none.
    pub(crate) fn last(&self) -> Row
        ensures last { result ≡ last_of self.now.rows }
        ensures legal { IsLegal self.now.rows }
    {
        self.last
    }

    /// A copy.
    pub(crate) fn again(&self) -> RowHistory
        ensures { result ≡ self.now }
    {
        RowHistory {
            note: self.note.again(),
            last: self.last,
        }
    }

    /// How far it has come.
    pub(crate) fn note(&self) -> Note
        ensures { result ≡ self.now }
    {
        self.note.again()
    }

    /// Adds a row to the history, as [`Note::add`].
    pub(crate) fn add<R: Wait>(&mut self, rt: &R, head: &Head, row: Row)
        requires head { head.now ≡ head_of self.old.book }
        requires follows { MayFollow self.old.rows row }
        ensures book { self.new.book ≡ self.old.book }
        ensures rows { self.new.rows ≡ self.old.rows ++ row ∷ [] }
    {
        self.note.add(rt, head, row);
        self.last = row;
    }
}

// The row of a device at which nothing has arrived.
fn opening() -> Row
    ensures { result ≡ opening }
{
    let none = Totals {
        packets: 0,
        bytes: 0,
    };
    Row {
        arrived: none,
        sent: none,
        refused: none,
        dropped: none,
        queued: none,
        marked: none,
    }
}

/// Whether no counter is lower than it was.
pub(crate) fn is_not_lower(before: &Row, after: &Row) -> bool
    ensures { IsTrue result ↔ IsNotLower before.now after.now }
{
    is_not_below(&before.arrived, &after.arrived)
        && is_not_below(&before.sent, &after.sent)
        && is_not_below(&before.refused, &after.refused)
        && is_not_below(&before.dropped, &after.dropped)
        && is_not_below(&before.marked, &after.marked)
}

// Whether neither number is lower than it was.
fn is_not_below(before: &Totals, after: &Totals) -> bool
    ensures { IsTrue result ↔ IsNotBelow before.now after.now }
{
    before.packets <= after.packets && before.bytes <= after.bytes
}
