ghost use Rattle.std.specs.Prelude.{◌≤◌};
ghost use Rattle.sets.specs.Sets.{Apart};

use problem::Goal;

mod making;

// A goal at a level: a state is asked to hold all of `need` and nothing of `avoid`. A value of this type always has a level
// from 1 to 32 and two sets with no atom in common.
#[derive(Clone, Copy)]
pub struct Position {
    pub level: u8,
    pub goal: Goal,
    ghost low: { 1 ≤ level },
    ghost high: { level ≤ 32 },
    ghost apart: { Apart goal.need goal.avoid },
}
