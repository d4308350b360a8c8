ghost use Rattle.std.specs.Prelude.{◌≡◌, ℕ, ◌+◌, ◌-◌, ◌<◌, ◌≤◌, length, Decides, bit_or};
ghost use Rattle.sets.specs.Sets.{minus};
ghost use Rattle.problem.specs.Actions.{adds, deletes, fires, FireAlike};
ghost use Rattle.problem.specs.Problems.{task_of};

use crate::making::begin;
use crate::problem::Problem;
use crate::rows::EffectRow;
use sets::{Entry, fitting_of, without};

impl<'a> Problem<'a> {
    // The effects of action `k`; none past the last action.
    pub fn effects_of(&self, k: usize) -> &'a [EffectRow]
        ensures { result.now ≡ ((task_of self.now).at k).effects }
    {
        if k >= self.actions.len() {
            return &[];
        }
        let n = self.effects.len();
        let first = begin(self.actions, n, k);
        let past = begin(self.actions, n, k + 1);
        &self.effects[first..past]
    }

    // The precondition of action `k`; the empty set past the last action.
    pub fn precondition_of(&self, k: usize) -> u64
        ensures { result ≡ ((task_of self.now).at k).precondition }
    {
        self.actions.get(k).map_or(0, |row| row.precondition)
    }
}

// What the effects that fire in a state add and delete.
#[derive(Clone, Copy)]
pub struct Change {
    pub add: u64,
    pub delete: u64,
}

// What the effects that fire in a state add and delete together.
pub fn change_in(effects: &[EffectRow], state: u64) -> Change
    ensures adds { result.add ≡ adds state effects.now }
    ensures deletes { result.delete ≡ deletes state effects.now }
{
    let mut add = 0;
    let mut delete = 0;
    for e in fitting_of(effects, &state) {
        add |= e.add;
        delete |= e.delete;
    }
    Change { add, delete }
}

// The state after the effects that fire in a state: what they add is put in, and then what they delete is taken out.
pub fn state_after(effects: &[EffectRow], state: u64) -> u64
    ensures { result ≡ minus (bit_or state (adds state effects.now)) (deletes state effects.now) }
{
    let change = change_in(effects, state);
    without(state | change.add, change.delete)
}

// Whether an effect fires in both states or in neither.
fn fires_alike(e: &EffectRow, s: u64, t: u64) -> bool
    ensures { Decides result (fires s e.now ≡ fires t e.now) }
{
    e.fits(&s) == e.fits(&t)
}

// Whether each effect fires in both states or in neither.
pub fn fire_alike(effects: &[EffectRow], s: u64, t: u64) -> bool
    ensures { Decides result (FireAlike effects.now s t) }
{
    effects.iter().all(|e| fires_alike(e, s, t))
}
