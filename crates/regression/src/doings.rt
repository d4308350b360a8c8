ghost use Rattle.problem.specs.Problems.{task_of};
ghost use Rattle.regression.specs.Doings.{Tells};

use crate::doing::Doing;
use problem::Problem;

// What each action of a step does in the states between `lo` and `hi`: a row for each, found once, since every pair of actions
// is looked at. That an action or a part belongs to the step stays a clause of the methods: which one is meant, the call says
// and not the type.
#[derive(Clone, Copy)]
pub(crate) struct Doings<'a> {
    pub(crate) problem: &'a Problem<'a>,
    pub(crate) step: u64,
    pub(crate) lo: u64,
    pub(crate) hi: u64,
    pub(crate) rows: [Option<Doing>; 4],
    ghost tells: { ∥ Tells (task_of problem.now).at step lo hi rows ∥₁ },
}
