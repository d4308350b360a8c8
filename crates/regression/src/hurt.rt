ghost use Rattle.std.specs.Prelude.{◌⊎◌};
ghost use Rattle.sets.specs.Sets.{Has};
ghost use Rattle.regression.specs.Spans.{Unhurt};
ghost use Rattle.regression.specs.Matters.{Rubs};
ghost use Rattle.regression.specs.Told.{acts};
ghost use Rattle.regression.specs.Verdicts.{Judged};

use crate::doings::Doings;
use crate::joining::ask_for;
use crate::verdict::Verdict;
use sets::without;

impl Doings<'_> {
    // Whether the action `j` leaves alone what the action `i` gives and must find.
    pub(crate) fn unhurt(&self, i: u32, j: u32) -> Verdict
        requires first { Has self.now.step i }
        requires second { Has self.now.step j }
        ensures { Judged self.now.lo self.now.hi (Unhurt (acts self.now) i j)
            (λ x. Rubs (acts self.now) i (acts self.now j) x ⊎ Rubs (acts self.now) j (acts self.now i) x) result }
    {
        let a = self.of(i);
        let b = self.of(j);
        let may = (a.give.may | a.read.may) & b.cut.may;
        if may == 0 {
            return Verdict::Yes;
        }
        if (a.give.sure | a.read.sure) & b.cut.sure != 0 {
            return Verdict::No;
        }
        let own = without(may, a.read.sure);
        ask_for(self.open_in(i, own, own, own) | self.open_in(j, 0, may, 0))
    }
}
