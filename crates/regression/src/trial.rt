ghost use Rattle.sets.specs.Sets.{Apart};
ghost use Rattle.problem.specs.Firm.{Step};
ghost use Rattle.problem.specs.Problems.{task_of};

use problem::{Goal, Problem};

// A step that may lead from the states of a region into a goal.
#[derive(Clone, Copy)]
pub(crate) struct Trial<'a> {
    pub(crate) problem: &'a Problem<'a>,
    pub(crate) step: u64,
    pub(crate) region: Goal,
    pub(crate) aim: Goal,
    ghost allowed: { Step (task_of problem.now) step },
    ghost apart: { Apart region.need region.avoid },
}
