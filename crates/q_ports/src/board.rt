use crate::row_history::RowHistory;
use left_right::Absorb;
use std::alloc::AllocError;

/// What gauges read: the rows that were published.
#[derive(Drop)]
pub struct Board {
    pub front: RowHistory,
}

impl Absorb<RowHistory> for Board {
    type State = RowHistory;

    ghost state = { λ b. b.front };

    ghost applied = { λ x y. y };

    ghost never_fails = { Unit {0} };

    fn absorb_first(&mut self, operation: &RowHistory, _other: &Board) -> Result<(), AllocError> {
        self.front = operation.again();
        Ok(())
    }
}
