ghost use Rattle.std.specs.Prelude.{◌⊎◌};
ghost use Rattle.sets.specs.Sets.{Has};
ghost use Rattle.regression.specs.Spans.{Kept, Got, Ungiven, Cleared, Reached};
ghost use Rattle.regression.specs.Matters.{GoalNames, Serving, Sways};
ghost use Rattle.regression.specs.Told.{acts};
ghost use Rattle.regression.specs.Verdicts.{Judged};

use crate::doings::Doings;
use crate::joining::{ask_for, both};
use crate::sums::Sums;
use crate::verdict::Verdict;
use problem::Goal;
use sets::without;

// The four tests are alike in form alone, and `ready`, `rest` and `unhurt` begin as they do: one function would take the set, the
// bounds and what to open, and say less.
impl Sums<'_> {
    // Whether no action of the step deletes an atom of `need`.
    fn kept(&self, need: u64) -> Verdict
        ensures { Judged self.now.doings.now.lo self.now.doings.now.hi (Kept (acts self.now.doings.now) self.now.doings.now.step need)
            (λ x. Has need x ⊎ Sways (acts self.now.doings.now) self.now.doings.now.step need x) result }
    {
        let Sums { doings, all } = *self;
        let may = need & all.cut.may;
        if may == 0 {
            return Verdict::Yes;
        }
        if need & all.cut.sure != 0 {
            return Verdict::No;
        }
        ask_for(doings.open_of(doings.step, 0, may))
    }

    // Whether each atom of `need` is there, or an action of the step gives it.
    fn got(&self, need: u64) -> Verdict
        ensures { Judged self.now.doings.now.lo self.now.doings.now.hi (Got (acts self.now.doings.now) self.now.doings.now.step need)
            (λ x. Has need x ⊎ Sways (acts self.now.doings.now) self.now.doings.now.step need x) result }
    {
        let Sums { doings, all } = *self;
        let may = without(without(need, doings.lo), all.give.sure);
        if may == 0 {
            return Verdict::Yes;
        }
        if without(without(need, doings.hi), all.give.may) != 0 {
            return Verdict::No;
        }
        if may & doings.hi != 0 {
            return ask_for(may & doings.hi);
        }
        ask_for(doings.open_of(doings.step, may, may))
    }

    // Whether no action of the step gives an atom of `avoid`.
    fn ungiven(&self, avoid: u64) -> Verdict
        ensures { Judged self.now.doings.now.lo self.now.doings.now.hi (Ungiven (acts self.now.doings.now) self.now.doings.now.step avoid)
            (λ x. Has avoid x ⊎ Sways (acts self.now.doings.now) self.now.doings.now.step avoid x) result }
    {
        let Sums { doings, all } = *self;
        let may = avoid & all.give.may;
        if may == 0 {
            return Verdict::Yes;
        }
        if avoid & all.give.sure != 0 {
            return Verdict::No;
        }
        ask_for(doings.open_of(doings.step, may, may))
    }

    // Whether an action of the step deletes each atom of `avoid` that is there.
    fn cleared(&self, avoid: u64) -> Verdict
        ensures { Judged self.now.doings.now.lo self.now.doings.now.hi (Cleared (acts self.now.doings.now) self.now.doings.now.step avoid)
            (λ x. Has avoid x ⊎ Sways (acts self.now.doings.now) self.now.doings.now.step avoid x) result }
    {
        let Sums { doings, all } = *self;
        let may = without(avoid & doings.hi, all.cut.sure);
        if may == 0 {
            return Verdict::Yes;
        }
        if without(avoid & doings.lo, all.cut.may) != 0 {
            return Verdict::No;
        }
        let open = without(may, doings.lo);
        if open != 0 {
            return ask_for(open);
        }
        ask_for(doings.open_of(doings.step, 0, may))
    }
}

impl Doings<'_> {
    // Whether the step, if it is firm, ends in a state of `aim`.
    pub(crate) fn reaches(&self, aim: Goal) -> Verdict
        ensures { Judged self.now.lo self.now.hi (Reached (acts self.now) self.now.step aim)
            (λ x. GoalNames aim x ⊎ Serving (acts self.now) self.now.step aim x) result }
    {
        let sums = Sums {
            doings: self,
            all: self.totals(self.step),
        };
        let needed = both(sums.kept(aim.need), sums.got(aim.need));
        let avoided = both(sums.ungiven(aim.avoid), sums.cleared(aim.avoid));
        both(needed, avoided)
    }
}
