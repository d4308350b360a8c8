ghost use Rattle.std.specs.Prelude.{◌⊎◌, ◌^◌};
ghost use Rattle.sets.specs.Sets.{Has, Inside, minus};
ghost use Rattle.regression.specs.Spans.{Rest, RestAll};
ghost use Rattle.regression.specs.Matters.{Stirs, Sways, Stirred};
ghost use Rattle.regression.specs.Told.{acts};
ghost use Rattle.regression.specs.Verdicts.{Judged};

use crate::doings::Doings;
use crate::joining::{ask_for, both};
use crate::verdict::Verdict;
use sets::{without, without_one};

impl Doings<'_> {
    // Whether a condition that does not hold does not come to hold by the actions of `others`.
    fn rest(&self, others: u64, condition: u64) -> Verdict
        requires { Inside others self.now.step }
        ensures { Judged self.now.lo self.now.hi (Rest (acts self.now) others condition)
            (λ x. (Has condition x × Stirs (acts self.now) others condition)
            ⊎ Sways (acts self.now) others condition x) result }
    {
        let gain = self.help(others, condition);
        let absent = without(condition, self.hi);
        if absent & gain != absent {
            return Verdict::Yes;
        }
        let missing = without(condition, self.lo);
        if missing & gain == 0 {
            return Verdict::Yes;
        }
        if missing & self.hi != 0 {
            return ask_for(missing & self.hi);
        }
        ask_for(self.open_of(others, missing, condition))
    }

    // Whether that is so of each effect of the action `i`, by the other actions of the step.
    pub(crate) fn rest_all(&self, i: u32) -> Verdict
        ensures { Judged self.now.lo self.now.hi
            (RestAll (acts self.now) (acts self.now i).effects (minus self.now.step (2 ^ i)))
            (Stirred (acts self.now) (acts self.now i).effects (minus self.now.step (2 ^ i))) result }
    {
        let others = without_one(self.step, i);

        // Effects stand in a list, and all_of goes over a set: to go over both it would speak of runs of an iterator.
        let mut verdict = Verdict::Yes;
        for e in self.problem.effects_of(i as usize) {
            verdict = both(verdict, self.rest(others, e.condition));
            if verdict == Verdict::No {
                return Verdict::No;
            }
        }
        verdict
    }
}
