ghost use Rattle.std.specs.Prelude.{length};
ghost use Rattle.sets.specs.Sets.{Within};
ghost use Rattle.problem.specs.Rows.{Placed, Sized, PreconditionsNamed, EffectsNamed};

use crate::rows::{ActionRow, EffectRow};

// A problem: so many atoms, so many hands, a first state, and the rows of its actions and their effects. A value of this type
// is always in range, with its rows in place and its sets within its atoms.
#[derive(Clone, Copy)]
pub struct Problem<'a> {
    pub atoms: u8,
    pub hands: u8,
    pub first: u64,
    pub actions: &'a [ActionRow],
    pub effects: &'a [EffectRow],
    ghost placed: { Placed actions.now (length effects.now) },
    ghost sized: { Sized atoms hands actions.now (length effects.now) },
    ghost named_first: { Within atoms first },
    ghost named_preconditions: { PreconditionsNamed atoms actions.now },
    ghost named_effects: { EffectsNamed atoms effects.now },
}
