ghost use Rattle.std.specs.Prelude.{ℕ, Decides};
ghost use Rattle.problem.specs.Problems.{task_of};
ghost use Rattle.regression.specs.Spans.{Sure};
ghost use Rattle.regression.specs.Matters.{Matters};
ghost use Rattle.regression.specs.Told.{acts};
ghost use Rattle.regression.specs.Verdicts.{Judged};
ghost use Rattle.regression.specs.Reaching.{Surely, Judges};

use crate::doings::Doings;
use crate::joining::both;
use crate::trial::Trial;
use crate::verdict::Verdict;
use problem::Goal;

impl Doings<'_> {
    // Whether the step is firm and ends in a state of `aim`, by what its actions surely and maybe do.
    fn certain(&self, aim: Goal) -> Verdict
        ensures { Judged self.now.lo self.now.hi (Sure (acts self.now) self.now.step aim)
            (Matters (acts self.now) self.now.step aim) result }
    {
        let reached = self.reaches(aim);
        if reached == Verdict::No {
            return Verdict::No;
        }
        both(self.all_fine(), reached)
    }
}

impl Trial<'_> {
    // Whether the step leads from the states of the region into the goal. A step with an idle action is not lean, so it is no step
    // of ours.
    pub(crate) fn judge(self) -> Verdict
        ensures { Judges (task_of self.entry.problem.now) self.entry.aim self.entry.step self.entry.region result }
    {
        let doings = Doings::new(self.problem, self.step, self.region);
        if doings.some_idle(self.aim) {
            return Verdict::No;
        }
        doings.certain(self.aim)
    }

    // Whether the verdict on the step is yes, idle actions or not.
    pub(crate) fn surely(self) -> bool
        ensures { Decides result (Surely (task_of self.entry.problem.now) self.entry.aim self.entry.step self.entry.region) }
    {
        Doings::new(self.problem, self.step, self.region).certain(self.aim) == Verdict::Yes
    }
}
