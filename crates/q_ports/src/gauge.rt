ghost use Rattle.std.specs.Prelude.{◌≡◌, ◌+◌, ◌<◌, ◌⊎◌, length, true, IfSome, IfNone};
ghost use mathlib.Core.List.{IsPrefix};
ghost use Rattle.left_right.specs.Sides.{view as view_of};
ghost use Rattle.q_ports.specs.Rows.{last_of, learning, Continues, IsLegal, IsNotLower};

use crate::board::Board;
use crate::board_view::{BoardView, Published, Reads};
use crate::note::Note;
use crate::row_history::RowHistory;
use crate::told::Told;
use core::mem::replace_with;
use left_right::reader::Reader;
use q_device::Row;
use std::marker::Model;

/// What a gauge reads the board with.
pub type BoardReader = Reader<Board, BoardView, Published>;

/// A reader of the device's counters, which never waits. It may be moved to another thread.
///
/// In contracts a gauge is the record `GaugeSeen`: the rows that the board showed when the gauge read it last, the rows that it has learnt of, and
/// how often it has read the board. In code it keeps no row.
#[derive(Drop)]
pub struct Gauge {
    pub(crate) reader: BoardReader,
    pub(crate) learnt: Note,
}

impl Model for Gauge {
    ghost use Rattle.std.specs.Prelude.{◌≡◌, true};
    ghost use Rattle.left_right.specs.Sides.{view as view_of};
    ghost use Rattle.q_ports.specs.Rows.{gauge_seen, GaugeSeen};

    ghost Value = { GaugeSeen };

    ghost view = { λ g. gauge_seen (view_of g.reader.place).front g.learnt.rows (view_of g.reader.place).reads };

    ghost invariant = { λ g. ((view_of g.reader.place).known ≡ true) × (g.learnt.book ≡ (view_of g.reader.place).front.book) };
}

impl Gauge {
    /// Reads the last row that was published: the counters of the device as they were after some turn. Waits for no thread, and allocates nothing.
    ///
    /// Returns the row. It is balanced (what arrived is what was sent, refused or dropped, or is queued), and no counter in it but `queued` is
    /// lower than in a row that this gauge read or learnt of before.
    ///
    /// Returns `None`, and changes nothing, if the board cannot be entered, which may be once the drain has ended. Also returns `None` if the board
    /// shows fewer rows than the gauge has learnt of: a turn publishes its row before it reports it, but it is not proved that the board shows the
    /// row by then.
    pub fn read(&mut self) -> Option<Row>
        ensures row { IfSome result (λ r. r ≡ last_of self.new.rows) }
        ensures reads { IfSome result (λ r. self.new.reads ≡ self.old.reads + 1) }
        ensures rows { IsPrefix self.old.rows self.new.rows }
        ensures learnt { IfSome result (λ r. IsPrefix self.old.learnt self.new.rows) }
        ensures legal { IfSome result (λ r. IsLegal self.new.rows) }
        ensures not_lower { IfSome result (λ r. IsNotLower (last_of self.old.rows) r × IsNotLower (last_of self.old.learnt) r) }
        ensures same { (self.new.book ≡ self.old.book) × (self.new.learnt ≡ self.old.learnt) }
        ensures none { IfNone result ((self.new ≡ self.old) ⊎ (length self.new.rows < length self.new.learnt)) }
    {
        let front = replace_with(&mut self.reader, (), |reader, _nothing| look(reader))?;
        if !self.learnt.begins(&front.note()) {
            return None;
        }
        Some(front.last())
    }

    /// Takes in what the drain of this gauge reported about a turn. From then on, each row that the gauge reads is the row of that turn or a later
    /// one.
    pub fn learn(&mut self, told: Told)
        requires { told.book ≡ self.old.book }
        ensures old { IsPrefix self.old.learnt self.new.learnt }
        ensures told { IsPrefix told.rows self.new.learnt }
        ensures same { self.new ≡ learning self.old self.new.learnt }
    {
        self.learnt = self.learnt.longer(&told.note);
    }
}

// Takes a copy of what is on the board.
fn look(reader: BoardReader) -> (BoardReader, Option<RowHistory>)
    requires { (view_of reader.place).known ≡ true }
    ensures known { (view_of result.0.place).known ≡ true }
    ensures continues { Continues (view_of reader.place).front (view_of result.0.place).front }
    ensures front { IfSome result.1 (λ f. f ≡ (view_of result.0.place).front) }
    ensures reads { IfSome result.1 (λ f. (view_of result.0.place).reads ≡ (view_of reader.place).reads + 1) }
    ensures none { IfNone result.1 (view_of result.0.place ≡ view_of reader.place) }
{
    match reader.enter_as::<Reads>() {
        Ok(reading) => {
            let front = reading.get().front.again();
            (reading.leave(), Some(front))
        }
        Err(reader) => (reader, None),
    }
}
