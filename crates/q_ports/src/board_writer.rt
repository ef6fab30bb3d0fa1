ghost use Rattle.std.specs.Prelude.{◌≡◌, ◌≤◌, [], true, drop, length, All, IsOk, IfOk, MatchBool};
ghost use Rattle.left_right.specs.Sides.{view as view_of};
ghost use Rattle.q_ports.specs.Rows.{gauge_seen, Continues, GaugeSeen};
ghost use Rattle.q_ports.specs.Views.{appending, last_front, newest, showing, writer_seen, AreContinued};

use crate::board::Board;
use crate::board_view::{BoardView, Notes, Published, Reads};
use crate::gauge::Gauge;
use crate::note::Note;
use crate::row_history::RowHistory;
use left_right::writer::Writer;
use std::alloc::{AllocError, Global};
use std::marker::Model;
use std::sync::Wait;

/// A writer under the rule of the board.
pub type RuledWriter = Writer<Board, RowHistory, BoardView, Published>;

/// What the drain writes the board with. It is not `Drop`: end it by `end`.
///
/// A contract sees it as the record `WriterSeen` of what the board shows, and of what was appended since.
pub struct BoardWriter {
    writer: RuledWriter,
}

impl Model for BoardWriter {
    ghost use Rattle.std.specs.Prelude.{◌≡◌, drop, true};
    ghost use Rattle.left_right.specs.Sides.{view as view_of};
    ghost use Rattle.q_ports.specs.Views.{writer_seen, AreContinued, WriterSeen};

    ghost Value = { WriterSeen };

    ghost view = { λ w. writer_seen w.writer.desk.shown.value.front (drop w.writer.behind w.writer.log.items) };

    ghost invariant = { λ w. ((view_of w.writer.desk.place).known ≡ true) × ((view_of w.writer.desk.place).front ≡ w.writer.desk.shown.value.front) × AreContinued w.writer.desk.shown.value.front (drop w.writer.behind w.writer.log.items) };
}

impl BoardWriter {
    /// A board that shows a history, with places for so many gauges.
    pub(crate) fn open<R: Wait>(
        rt: &R,
        alloc: Global,
        front: &RowHistory,
        gauges: usize,
    ) -> Result<BoardWriter, AllocError>
        requires { gauges ≤ 16 }
        ensures { IfOk result (λ w. w ≡ writer_seen front.now []) }
    {
        let writer = begin(rt, alloc, front, gauges)?;
        Ok(BoardWriter { writer })
    }

    /// Takes in a history to be shown; `false` where an allocation fails.
    pub(crate) fn append(&mut self, front: RowHistory) -> bool
        requires { Continues (newest self.old) front }
        ensures { MatchBool result (self.new ≡ appending self.old front) (self.new ≡ self.old) }
    {
        self.writer.append(front).is_ok()
    }

    /// Shows all that was taken in. It may wait for gauges.
    pub(crate) fn show<R: Wait>(self, rt: &R) -> BoardWriter
        ensures { result ≡ showing self }
    {
        let BoardWriter { writer } = self;
        let (writer, _shown) = show(rt, writer);
        BoardWriter { writer }
    }

    /// So many gauges of the board, which have learnt of this.
    pub(crate) fn gauges(
        &mut self,
        alloc: Global,
        note: &Note,
        count: usize,
    ) -> Result<Vec<Gauge>, AllocError>
        requires { note.now.book ≡ self.old.shown.book }
        ensures same { self.new ≡ self.old }
        ensures count { IfOk result (λ all. length all.items ≡ count) }
        ensures gauges { IfOk result (λ all. All (λ (g : GaugeSeen). g ≡ gauge_seen self.old.shown note.now.rows 0) all.items) }
    {
        let mut all = Vec::with_capacity(alloc, count)?;
        for _gauge in 0..count {
            let gauge = self.gauge(note)?;
            all.push_reserved(gauge);
        }
        Ok(all)
    }

    // A gauge of the board, which has learnt of this.
    fn gauge(&mut self, note: &Note) -> Result<Gauge, AllocError>
        requires { note.now.book ≡ self.old.shown.book }
        ensures same { self.new ≡ self.old }
        ensures gauge { IfOk result (λ g. g ≡ gauge_seen self.old.shown note.now.rows 0) }
    {
        gauge(&mut self.writer, note)
    }

    /// Ends it. It may wait for gauges.
    pub(crate) fn end<R: Wait>(self, rt: &R) {
        let BoardWriter { writer } = self;
        writer.take(rt);
    }
}

// A board with the opening row, shown, and the writer that knows its book.
fn begin<R: Wait>(
    rt: &R,
    alloc: Global,
    front: &RowHistory,
    gauges: usize,
) -> Result<RuledWriter, AllocError>
    requires { gauges ≤ 16 }
    ensures shown { IfOk result (λ w. w.desk.shown.value.front ≡ front.now) }
    ensures known { IfOk result (λ w. ((view_of w.desk.place).known ≡ true) × ((view_of w.desk.place).front ≡ front.now)) }
    ensures pending { IfOk result (λ w. drop w.behind w.log.items ≡ []) }
{
    let first = Board {
        front: front.again(),
    };
    let second = Board {
        front: front.again(),
    };
    let writer: RuledWriter = Writer::new(alloc, first, second, gauges.max(1))?;
    let (writer, _shown) = show(rt, writer);
    Ok(writer)
}

// Shows all that is pending. It may wait for gauges.
fn show<R: Wait>(rt: &R, writer: RuledWriter) -> (RuledWriter, Result<(), AllocError>)
    requires { AreContinued writer.desk.shown.value.front (drop writer.behind writer.log.items) }
    ensures succeeds { IsOk result.1 }
    ensures shown { result.0.desk.shown.value.front ≡ last_front writer.desk.shown.value.front (drop writer.behind writer.log.items) }
    ensures known { ((view_of result.0.desk.place).known ≡ true) × ((view_of result.0.desk.place).front ≡ result.0.desk.shown.value.front) }
    ensures pending { drop result.0.behind result.0.log.items ≡ [] }
{
    writer.publish_as::<Reads, R>(rt)
}

// A gauge of the board, which has learnt of this.
fn gauge(writer: &mut RuledWriter, note: &Note) -> Result<Gauge, AllocError>
    requires known { ((view_of writer.old.desk.place).known ≡ true) × (note.now.book ≡ (view_of writer.old.desk.place).front.book) }
    ensures gauge { IfOk result (λ g. g ≡ gauge_seen (view_of writer.old.desk.place).front note.now.rows 0) }
    ensures shown { writer.new.desk.shown ≡ writer.old.desk.shown }
    ensures pending { drop writer.new.behind writer.new.log.items ≡ drop writer.old.behind writer.old.log.items }
    ensures view { view_of writer.new.desk.place ≡ view_of writer.old.desk.place }
{
    let mut reader = writer.factory().reader()?;
    reader.learn::<Notes>(writer.tell::<Notes>());
    Ok(Gauge {
        reader,
        learnt: note.again(),
    })
}
