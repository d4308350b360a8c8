ghost use Rattle.std.specs.Prelude.{◌≤◌, count_ones};
ghost use Rattle.sets.specs.Sets.{Has};
ghost use Rattle.problem.specs.Firm.{Step};
ghost use Rattle.problem.specs.Problems.{task_of};
ghost use Rattle.regression.specs.Doings.{Does, Tells};
ghost use Rattle.regression.specs.Told.{acts, TellsOf};

use crate::doing::{Bounds, Doing};
use crate::doings::Doings;
use crate::effects::read_in;
use problem::{Goal, Problem, change_in};
use sets::{members_of, without};

// What an action does in the states between `lo` and `hi`: what fires in `lo` fires in all of them, and what fires in any of
// them fires in `hi`.
fn doing(problem: &Problem, action: u32, lo: u64, hi: u64) -> Doing
    ensures { Does (task_of problem.now).at lo hi action result }
{
    let number = action as usize;
    let effects = problem.effects_of(number);
    let precondition = problem.precondition_of(number);
    let low = change_in(effects, lo);
    let high = change_in(effects, hi);
    Doing {
        action,
        give: Bounds {
            sure: without(low.add, high.delete),
            may: without(high.add, low.delete),
        },
        cut: Bounds {
            sure: low.delete,
            may: high.delete,
        },
        read: Bounds {
            sure: precondition | read_in(effects, lo),
            may: precondition | read_in(effects, hi),
        },
    }
}

// A row for each action of a step.
fn rows_of(problem: &Problem, step: u64, lo: u64, hi: u64) -> [Option<Doing>; 4]
    requires { count_ones step ≤ 4 }
    ensures { Tells (task_of problem.now).at step lo hi result }
{
    let mut rows = [None; 4];
    for (count, action) in members_of(step).enumerate() {
        rows[count] = Some(doing(problem, action, lo, hi));
    }
    rows
}

impl<'a> Doings<'a> {
    // What each action of a step does in the states of a region.
    pub(crate) fn new(problem: &'a Problem<'a>, step: u64, region: Goal) -> Doings<'a>
        requires { Step (task_of problem.now) step }
        ensures { TellsOf problem.now step region result }
    {
        let lo = region.need;
        let hi = !region.avoid;
        Doings {
            problem,
            step,
            lo,
            hi,
            rows: rows_of(problem, step, lo, hi),
        }
    }

    // What the action `i` does.
    pub(crate) fn of(&self, i: u32) -> Doing
        requires { Has self.now.step i }
        ensures { Does (acts self.now) self.now.lo self.now.hi i result }
    {
        self.rows
            .iter()
            .find_map(|row| row.filter(|doing| doing.action == i))
            .unwrap()
    }
}
