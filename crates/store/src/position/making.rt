ghost use Rattle.std.specs.Prelude.{◌≡◌, Decides, MatchResult};
ghost use Rattle.problem.specs.Runs.{Meets};
ghost use Rattle.store.specs.Positions.{at, target_of, Proper};
ghost use Rattle.store.specs.Declines.{PositionDeclines};

use super::Position;
use problem::{Goal, Refusal};
use sets::apart;

impl Position {
    // The position of these numbers, or why there is none: its level is looked at first, then its sets.
    pub fn new(level: u8, goal: Goal) -> Result<Position, Refusal>
        ensures { MatchResult result
            (λ p. Proper (at level goal) × (target_of p ≡ at level goal))
            (λ e. PositionDeclines (at level goal) e) }
    {
        if !matches!(level, 1..=32) {
            return Err(Refusal::BadLevel);
        }
        if !apart(goal.need, goal.avoid) {
            return Err(Refusal::SharedAtom);
        }
        Ok(Position { level, goal })
    }

    // Whether a state meets the position: it meets its goal.
    pub fn met_by(&self, state: u64) -> bool
        ensures { Decides result (Meets (target_of self.now).goal state) }
    {
        self.goal.met_by(state)
    }
}
