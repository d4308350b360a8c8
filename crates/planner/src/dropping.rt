ghost use Rattle.std.specs.Prelude.{Decides};
ghost use Rattle.sets.specs.Sets.{Within};
ghost use Rattle.store.specs.Positions.{target_of};
ghost use Rattle.outlook.specs.Outlooks.{Shut};
ghost use Rattle.claim.specs.Search.{Dropped};
ghost use Rattle.planner.specs.Paths.{KnownBarred};

use outlook::{Outlook, holds_barred};
use problem::Goal;
use store::{Position, Store};

// Whether a set holds a pair that is barred at a level; of a set or level that the outlook does not know it says no.
pub(crate) fn barred<O: Outlook>(outlook: &O, level: u8, set: u64) -> bool
    ensures { Decides result (KnownBarred (O.task outlook.now) (O.view outlook.now) level set) }
{
    holds_barred(outlook, level, set).unwrap_or(false)
}

// Whether no run at all reaches the goal, by the closing level.
pub(crate) fn shut<O: Outlook>(outlook: &O, goal: Goal) -> bool
    requires { Within (O.task outlook.now).atoms goal.need }
    ensures { Decides result (Shut (O.view outlook.now) goal) }
{
    outlook
        .closing()
        .is_some_and(|level| barred(outlook, level, goal.need))
}

// Whether a position is not to be opened.
pub(crate) fn dropped<O: Outlook, S: Store>(outlook: &O, store: &S, position: &Position) -> bool
    requires { Within (O.task outlook.now).atoms position.now.goal.need }
    ensures { Decides result (Dropped (O.view outlook.now) (S.meaning store.now) (target_of position.now)) }
{
    barred(outlook, position.level, position.goal.need) || store.review(position)
}
