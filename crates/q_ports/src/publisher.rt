ghost use Rattle.std.specs.Prelude.{◌≡◌, ◌≤◌, [], length, All, IfOk, IfSome, IfNone};
ghost use Rattle.q_model.specs.Conserved.{IsBalanced};
ghost use Rattle.q_ports.specs.Rows.{new_gauge, shown_on, GaugeSeen, Publishes, Withholds};

use crate::board_writer::BoardWriter;
use crate::gauge::Gauge;
use crate::note::Head;
use crate::row_history::{RowHistory, is_not_lower};
use crate::told::Told;
use core::mem::replace_with;
use q_device::Row;
use std::alloc::{AllocError, Global};
use std::marker::Model;
use std::sync::Wait;

/// The drain's end of the gauges: it publishes the device's row. It is not `Drop`: end it by `end`.
///
/// A contract sees it as all rows that were handed over for publication, and those that the board shows.
pub struct Publisher {
    writer: BoardWriter,
    head: Head,
    front: RowHistory,
}

impl Model for Publisher {
    ghost use Rattle.std.specs.Prelude.{◌≡◌, []};
    ghost use Rattle.q_ports.specs.Rows.{board_seen, BoardSeen, Continues};
    ghost use Rattle.q_ports.specs.Rules.{head_of};
    ghost use Rattle.q_ports.specs.Views.{writer_seen};

    ghost Value = { BoardSeen };

    ghost view = { λ p. board_seen p.front p.writer.shown.rows };

    ghost invariant = { λ p. (p.head ≡ head_of p.front.book) × (p.writer ≡ writer_seen p.writer.shown []) × Continues p.writer.shown p.front };
}

impl Publisher {
    /// An empty history, with so many gauges of it.
    ///
    /// # Errors
    ///
    /// `AllocError` where an allocation fails, or a gauge finds no place.
    pub(crate) fn open<R: Wait>(
        rt: &R,
        alloc: Global,
        gauges: usize,
    ) -> Result<(Publisher, Vec<Gauge>), AllocError>
        requires { gauges ≤ 16 }
        ensures rows { IfOk result (λ r. (r.0.rows ≡ []) × (r.0.shown ≡ [])) }
        ensures count { IfOk result (λ r. length r.1.items ≡ gauges) }
        ensures gauges { IfOk result (λ r. All (λ (g : GaugeSeen). g ≡ new_gauge (shown_on r.0)) r.1.items) }
    {
        let (front, head) = RowHistory::open();
        let mut writer = BoardWriter::open(rt, alloc, &front, gauges)?;
        let all = match writer.gauges(alloc, &front.note(), gauges) {
            Ok(all) => all,
            Err(error) => {
                writer.end(rt);
                return Err(error);
            }
        };
        let publisher = Publisher {
            writer,
            head,
            front,
        };
        Ok((publisher, all))
    }

    /// Publishes a row, with all that were handed over before. It may wait for gauges.
    ///
    /// `None` where the row is lower than the last one in some counter, which is then not handed over, or where memory for the
    /// publication was refused: the next one shows the row too.
    pub(crate) fn publish<R: Wait>(&mut self, rt: &R, row: Row) -> Option<Told>
        requires { IsBalanced row }
        ensures book { self.new.book ≡ self.old.book }
        ensures told { IfSome result (λ t. t ≡ shown_on self.new) }
        ensures published { IfSome result (λ t. Publishes self.old row self.new) }
        ensures withheld { IfNone result (Withholds self.old row self.new) }
    {
        if !is_not_lower(&self.front.last(), &row) {
            return None;
        }
        self.front.add(rt, &self.head, row);
        if !self.writer.append(self.front.again()) {
            return None;
        }
        replace_with(&mut self.writer, rt, |writer, rt| (writer.show(rt), ()));
        Some(Told {
            note: self.front.note(),
        })
    }

    /// Ends it. It may wait for gauges; from then on a gauge may read nothing.
    pub(crate) fn end<R: Wait>(self, rt: &R) {
        let Publisher {
            writer,
            head: _head,
            front: _front,
        } = self;
        writer.end(rt);
    }
}
