ghost use Rattle.std.specs.Prelude.{Decides};
ghost use Rattle.problem.specs.Runs.{Meets};

use sets::{apart, inside};

// A goal: to hold all of `need` and nothing of `avoid`. The two sets may be any.
#[derive(Clone, Copy, Default, PartialEq, Eq)]
pub struct Goal {
    pub need: u64,
    pub avoid: u64,
}

impl Goal {
    // Whether a state meets the goal.
    pub fn met_by(&self, state: u64) -> bool
        ensures { Decides result (Meets self.now state) }
    {
        inside(self.need, state) && apart(self.avoid, state)
    }
}
