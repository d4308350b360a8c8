ghost use Rattle.std.specs.Prelude.{◌^◌, Decides};
ghost use Rattle.sets.specs.Sets.{Has, minus};
ghost use Rattle.regression.specs.Spans.{Idle, SomeIdle};
ghost use Rattle.regression.specs.Told.{acts};

use crate::doings::Doings;
use problem::Goal;
use sets::{members_of, without, without_one};

impl Doings<'_> {
    // Whether everything that the action `i` may do for `aim` is surely there or done by the others.
    fn idle(&self, i: u32, aim: Goal) -> bool
        requires { Has self.now.step i }
        ensures { Decides result
            (Idle (acts self.now) i (minus self.now.step (2 ^ i)) aim self.now.lo self.now.hi) }
    {
        let mine = self.of(i);
        let theirs = self.totals(without_one(self.step, i));
        let given = without(without(mine.give.may & aim.need, self.lo), theirs.give.sure);
        let deleted = without(mine.cut.may & aim.avoid & self.hi, theirs.cut.sure);
        given | deleted == 0
    }

    // Whether that is so of some action of the step.
    pub(crate) fn some_idle(&self, aim: Goal) -> bool
        ensures { Decides result
            (SomeIdle (acts self.now) self.now.step aim self.now.lo self.now.hi) }
    {
        members_of(self.step).any(|i| self.idle(i, aim))
    }
}
