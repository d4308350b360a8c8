ghost use Rattle.std.specs.Prelude.{ℕ, ◌^◌};
ghost use Rattle.sets.specs.Sets.{Has, Inside, minus};
ghost use Rattle.regression.specs.Spans.{UnhurtBy, Fine};
ghost use Rattle.regression.specs.Matters.{Concerns};
ghost use Rattle.regression.specs.Told.{acts};
ghost use Rattle.regression.specs.Verdicts.{Judged};

use crate::doings::Doings;
use crate::joining::{all_of, ask_for, both};
use crate::verdict::Verdict;
use sets::{without, without_one};

impl Doings<'_> {
    // Whether the precondition of the action `i` holds.
    fn ready(&self, i: u32) -> Verdict
        ensures { Judged self.now.lo self.now.hi (λ l h. Inside (acts self.now i).precondition l)
            (λ x. Has (acts self.now i).precondition x) result }
    {
        let precondition = self.problem.precondition_of(i as usize);
        let missing = without(precondition, self.lo);
        if missing == 0 {
            return Verdict::Yes;
        }
        if without(precondition, self.hi) != 0 {
            return Verdict::No;
        }
        ask_for(missing & self.hi)
    }

    // Whether the other actions of the step leave alone what the action `i` gives and must find.
    fn unhurt_by_others(&self, i: u32) -> Verdict
        requires { Has self.now.step i }
        ensures { Judged self.now.lo self.now.hi (UnhurtBy (acts self.now) i (minus self.now.step (2 ^ i)))
            (Concerns (acts self.now) self.now.step) result }
    {
        all_of(without_one(self.step, i), |j| self.unhurt(i, j))
    }

    // Whether the action `i` of the step may run, and the others neither hurt it nor make it fire more.
    fn fine(&self, i: u32) -> Verdict
        requires { Has self.now.step i }
        ensures { Judged self.now.lo self.now.hi (Fine (acts self.now) self.now.step i)
            (Concerns (acts self.now) self.now.step) result }
    {
        both(
            self.ready(i),
            both(self.unhurt_by_others(i), self.rest_all(i)),
        )
    }

    // Whether that is so of each action of the step.
    pub(crate) fn all_fine(&self) -> Verdict
        ensures { Judged self.now.lo self.now.hi
            (λ l h. (i : ℕ) → Has self.now.step i → Fine (acts self.now) self.now.step i l h)
            (Concerns (acts self.now) self.now.step) result }
    {
        all_of(self.step, |i| self.fine(i))
    }

    // Whether the actions of the step leave one another alone.
    pub(crate) fn friendly(&self) -> Verdict
        ensures { Judged self.now.lo self.now.hi
            (λ l h. (i : ℕ) → Has self.now.step i → UnhurtBy (acts self.now) i (minus self.now.step (2 ^ i)) l h)
            (Concerns (acts self.now) self.now.step) result }
    {
        all_of(self.step, |i| self.unhurt_by_others(i))
    }
}
