ghost use Rattle.std.specs.Prelude.{◌≡◌};
ghost use Rattle.problem.specs.Actions.{gather};
ghost use Rattle.regression.specs.Spans.{GatheredBy, conditions, wanted};
ghost use Rattle.regression.specs.Told.{acts};

use crate::doings::Doings;
use problem::EffectRow;
use sets::{fitting_of, without};

// The union of the sets that `part` has for the effects that fire in a state. Not one with `union_of`, which goes over a set: a
// union over both would speak of the runs of an iterator.
fn union_in<F: Fn(EffectRow) -> u64>(effects: &[EffectRow], state: u64, part: F) -> u64
    requires { F.IsAlwaysCallable part }
    ensures { GatheredBy (F.post part) state effects.now result }
{
    let mut union = 0;
    for e in fitting_of(effects, &state) {
        union |= part(*e);
    }
    union
}

// The conditions of the effects that fire in a state.
pub(crate) fn read_in(effects: &[EffectRow], state: u64) -> u64
    ensures { result ≡ conditions state effects.now }
{
    union_in(effects, state, |e| e.condition)
}

// What is open of an effect's condition above `lo`, if it adds an atom of `add`, deletes one of `delete` or has one of `read`
// in its condition.
fn wanted_of(e: EffectRow, lo: u64, add: u64, delete: u64, read: u64) -> u64
    ensures { result ≡ wanted lo add delete read e }
{
    if e.add & add | e.delete & delete | e.condition & read == 0 {
        0
    } else {
        without(e.condition, lo)
    }
}

impl Doings<'_> {
    // What is open of the conditions of such effects of the action `i`.
    pub(crate) fn open_in(&self, i: u32, add: u64, delete: u64, read: u64) -> u64
        ensures { result ≡ gather (wanted self.now.lo add delete read) self.now.hi (acts self.now i).effects }
    {
        let effects = self.problem.effects_of(i as usize);
        union_in(
            effects,
            self.hi,
            |e| wanted_of(e, self.lo, add, delete, read),
        )
    }
}
