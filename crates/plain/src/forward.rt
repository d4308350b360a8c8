ghost use Rattle.std.specs.Prelude.{MatchResult};
ghost use Rattle.problem.specs.Problems.{task_of};
ghost use Rattle.plain.specs.Growth.{Stops};
ghost use Rattle.plain.specs.Searches.{Asked, SearchDeclines, Answers, Fails};

use crate::found::{Fault, Found};
use crate::tree::{Bounds, Stop, Tree};
use problem::{Goal, Problem, Refusal};
use sets::{apart, within};
use std::alloc::Global;

// The longest run that can be asked for.
const LONGEST: u8 = 32;

// Whether a goal and a limit can be asked for, or the first reason why not. The planner makes these checks too, in words of its
// own: a yardstick that shared them with what is held against it would not show a fault in them.
fn check(problem: &Problem, goal: Goal, limit: u8) -> Result<(), Refusal>
    ensures { MatchResult result
        (λ _. Asked (task_of problem.now) goal limit)
        (λ e. SearchDeclines (task_of problem.now) goal limit e) }
{
    let atoms = usize::from(problem.atoms);
    if !(within(goal.need, atoms) && within(goal.avoid, atoms)) {
        return Err(Refusal::UnknownAtom);
    }
    if !apart(goal.need, goal.avoid) {
        return Err(Refusal::SharedAtom);
    }
    if limit > LONGEST {
        return Err(Refusal::BadLevel);
    }
    Ok(())
}

// Looks at the reached states one after the other, and grows the tree out of each that does not meet the goal.
fn explore(heap: Global, bounds: &Bounds, goal: Goal) -> Result<Found, Stop>
    ensures { MatchResult result
        (λ found. Answers (task_of bounds.now.problem.now) goal bounds.now.limit bounds.now.most found)
        (λ stop. Stops (task_of bounds.now.problem.now) bounds.now.limit bounds.now.most stop) }
{
    let mut tree = Tree::planted(heap, bounds)?;
    // the tree grows while it is walked, so its entries are counted and not iterated over
    let mut next = 0;
    while let Some(state) = tree.state_of(next) {
        if goal.met_by(state) {
            return Ok(Found::Plan(tree.steps_to(heap, next)?));
        }
        tree.grow(bounds, next, 0, 0)?;
        next += 1;
    }
    Ok(Found::NotWithin)
}

// Searches for a firm run of at most `limit` steps that reaches a goal, and remembers at most `most` states.
pub fn search(
    heap: Global,
    problem: &Problem,
    goal: Goal,
    limit: u8,
    most: usize,
) -> Result<Found, Fault>
    ensures { MatchResult result
        (λ found. Asked (task_of problem.now) goal limit
        × Answers (task_of problem.now) goal limit most found)
        (λ fault. Fails (task_of problem.now) goal limit fault) }
{
    check(problem, goal, limit)?;
    let bounds = Bounds {
        problem,
        limit,
        most,
    };
    explore(heap, &bounds, goal).or_else(|stop| match stop {
        Stop::Full => Ok(Found::Full),
        Stop::NoMemory => Err(Fault::NoMemory),
    })
}
