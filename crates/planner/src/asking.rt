ghost use Rattle.problem.specs.Firm.{Task};
ghost use Rattle.problem.specs.Problems.{Fits};
ghost use Rattle.store.specs.Positions.{at};
ghost use Rattle.store.specs.Stores.{Blank};
ghost use Rattle.claim.specs.Turns.{Reviews, reviews, clears};
ghost use Rattle.claim.specs.Claim.{GoesOn};

use problem::{Goal, Refusal};
use store::{Position, Store};

// Whether the store covers the goal at the level; it declines where they are no position.
pub fn review<S: Store>(store: &S, level: u8, goal: Goal) -> Result<bool, Refusal>
    ensures promise { Reviews (at level goal) result (S.meaning store.now) (S.meaning store.now) }
    ensures claim { (t : Task) → Fits t → GoesOn t (S.meaning store.now) (reviews (at level goal) result) (S.meaning store.now) }
{
    let position = Position::new(level, goal)?;
    Ok(store.review(&position))
}

// Lets the store begin anew.
pub fn clear<S: Store>(store: &mut S)
    ensures promise { Blank (S.meaning store.new) }
    ensures claim { (t : Task) → Fits t → GoesOn t (S.meaning store.old) clears (S.meaning store.new) }
{
    store.clear();
}
