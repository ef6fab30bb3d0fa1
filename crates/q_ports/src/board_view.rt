use crate::board::Board;
use crate::row_history::RowHistory;
use atomic_table::{Join, Split};
use crossbeam_utils::rule::{Outcome, Protocol};

/// What the drain or a gauge knows of the board: what it showed, and how often it was read. No value of it is made.
pub struct BoardView {
    pub known: bool,
    pub reads: u64,
    pub front: RowHistory,
}

/// The rule of the board: what is known of it is a beginning of what it shows.
pub struct Published;

impl Protocol<Board, BoardView> for Published {
    ghost use Rattle.q_ports.specs.Views.{newcomer, IsShared};

    ghost holds = { IsShared };

    ghost first = { newcomer };
}

/// A read of the board, or a change of it.
pub struct Reads;

impl Outcome<Board, BoardView> for Reads {
    ghost use Rattle.q_ports.specs.Views.{Reads};

    ghost then = { Reads };
}

/// The drain reports what it knows.
pub struct Notes;

impl Split<BoardView> for Notes {
    ghost left = { λ v. v };

    ghost right = { λ v. v };
}

impl Join<BoardView> for Notes {
    ghost use Rattle.q_ports.specs.Views.{newcomer};

    ghost both = { λ v w. record w { reads = v.reads } };

    ghost spent = { newcomer };
}
