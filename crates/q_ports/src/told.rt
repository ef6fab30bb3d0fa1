use crate::note::Note;
use std::marker::Model;

/// A note that says which rows the board showed after a turn. A gauge that has learnt it reads no older row.
///
/// In code it has no row. In contracts it is the history of the rows up to there.
#[derive(Drop)]
pub struct Told {
    pub(crate) note: Note,
}

impl Model for Told {
    ghost use Rattle.q_ports.specs.Rows.{RowHistorySeen};

    ghost Value = { RowHistorySeen };

    ghost view = { λ t. t.note };
}
