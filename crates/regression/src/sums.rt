ghost use Rattle.regression.specs.Doings.{Totalled};
ghost use Rattle.regression.specs.Told.{acts};

use crate::doing::Totals;
use crate::doings::Doings;

// The rows of a step, and what all of its actions give and delete together.
#[derive(Clone, Copy)]
pub(crate) struct Sums<'a> {
    pub(crate) doings: &'a Doings<'a>,
    pub(crate) all: Totals,
    ghost totalled: { ∥ Totalled (acts doings.now) doings.now.lo doings.now.hi doings.now.step all ∥₁ },
}
