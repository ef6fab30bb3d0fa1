ghost use Rattle.std.specs.Prelude.{◌≡◌, ◌<◌, ◌≤◌, length};
ghost use Rattle.q_drr.specs.Schedule.{turned, turn_answer};
ghost use Rattle.q_drr.specs.declared.active.Turn.TheVariants.{Send, Granted};
ghost use Rattle.q_drr.specs.Rounds.{CanGo, HasGone};

use crate::active::{Active, Turn};

/// A round of turns in which every class is granted, as far as it has come: what a take keeps beside the classes so that it turns no
/// more than a few rounds, however small the quanta are.
#[derive(Clone, Copy, Debug)]
pub struct Round {
    // How many classes have their turn before each has been granted; 0 where no round has begun.
    left: usize,
    // The fewest grants that a class granted in this round needs still.
    fewest: u64,
}

impl Round {
    /// No round has begun.
    pub fn new() -> Round
        ensures { result ≡ record { left = 0; fewest = 0 } }
    {
        Round { left: 0, fewest: 0 }
    }

    /// Gives the class in front its turn, as [`Active::turn`] does. Where that ends a round in which every class was granted, those
    /// rounds that follow, in which every class is granted too, are given at once.
    pub fn turn(&mut self, active: &mut Active, head_len: u16) -> Turn
        requires front { 0 < length active.old.active }
        requires in_range { head_len ≤ active.old.max_len }
        requires round { CanGo head_len self.old active.old }
        ensures answer { result ≡ turn_answer head_len active.old.active }
        ensures sends { result ≡ Send → active.new ≡ turned head_len active.old }
        ensures goes { result ≡ Granted → (h : CanGo head_len self.old active.old) → HasGone h.heads head_len active.old active.new self.new }
    {
        let needed = active.grants_needed(head_len);
        let turn = active.turn(head_len);
        if needed == 0 {
            return turn;
        }
        if self.left == 0 {
            self.left = active.active_count();
            self.fewest = u64::MAX;
        }
        self.fewest = self.fewest.min(needed - 1);
        self.left -= 1;
        if self.left == 0 {
            active.grant_rounds(self.fewest);
            self.fewest = 0;
        }
        turn
    }
}
