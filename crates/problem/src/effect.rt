ghost use Rattle.sets.specs.Sets.{Inside};

use crate::rows::EffectRow;
use sets::{Entry, inside};

// An effect is held against a state: it fits where it fires.
impl Entry for EffectRow {
    type Against = u64;

    ghost fitting = { λ e s. Inside e.condition s };

    fn fits(&self, against: &u64) -> bool {
        inside(self.condition, *against)
    }
}
