ghost use Rattle.std.specs.Prelude.{◌≡◌};
ghost use Rattle.store.specs.Positions.{Covers, target_of, row_target, row_of};

use crate::position::Position;
use problem::Goal;
use sets::{Entry, inside};

// A position as it lies in a lent list: plain, with no invariant of its own.
#[derive(Clone, Copy, Default)]
pub struct KeptRow {
    pub level: u8,
    pub goal: Goal,
}

impl From<Position> for KeptRow {
    ghost from_gives = { λ p r. r ≡ row_of p };

    fn from(position: Position) -> KeptRow {
        KeptRow {
            level: position.level,
            goal: position.goal,
        }
    }
}

// A kept row is held against a position: it fits where it covers it.
impl Entry for KeptRow {
    type Against = Position;

    ghost fitting = { λ row p. Covers (row_target row) (target_of p) };

    fn fits(&self, against: &Position) -> bool {
        self.level >= against.level
            && inside(self.goal.need, against.goal.need)
            && inside(self.goal.avoid, against.goal.avoid)
    }
}
