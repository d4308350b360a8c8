ghost use Rattle.std.specs.Prelude.{◌≡◌, ℕ, ◌+◌, ◌<◌, ◌≤◌, [], length, Decides, MatchResult};
ghost use Rattle.problem.specs.Rows.{begins, Placed, Sized, Named, PreconditionsNamed, EffectsNamed};
ghost use Rattle.problem.specs.Problems.{Consists};
ghost use Rattle.problem.specs.Declines.{Loads, LoadDeclines};

use crate::problem::Problem;
use crate::refusal::Refusal;
use crate::rows::{ActionRow, EffectRow};
use sets::within;

// Where the effects of action `k` begin, among `n` effects; past the last action, at the end.
pub(crate) fn begin(actions: &[ActionRow], n: usize, k: usize) -> usize
    ensures { result ≡ begins actions.now n k }
{
    actions.get(k).map_or(n, |row| row.first_effect)
}

// By place, here and below: the effects of an action end where those of the next begin.
// Whether the effects of the actions stand one action after the other, from the first effect to the last.
fn placed(actions: &[ActionRow], n: usize) -> bool
    ensures { Decides result (Placed actions.now n) }
{
    begin(actions, n, 0) == 0
        && (0..actions.len()).all(|k| begin(actions, n, k) <= begin(actions, n, k + 1))
}

// Whether no action has more than eight effects.
fn few_effects(actions: &[ActionRow], n: usize) -> bool
    ensures { Decides result ((k : ℕ) → k < length actions.now → begins actions.now n (k + 1) ≤ begins actions.now n k + 8) }
{
    (0..actions.len()).all(|k| begin(actions, n, k + 1).saturating_sub(begin(actions, n, k)) <= 8)
}

// Whether atoms, hands, actions and effects are as many as they may be.
fn sized(atoms: u8, hands: u8, actions: &[ActionRow], n: usize) -> bool
    ensures { Decides result (Sized atoms hands actions.now n) }
{
    matches!(atoms, 1..=64)
        && matches!(hands, 1..=4)
        && actions.len() <= 64
        && few_effects(actions, n)
}

// Whether the preconditions name only atoms below `m`.
fn preconditions_named(actions: &[ActionRow], m: u8) -> bool
    ensures { Decides result (PreconditionsNamed m actions.now) }
{
    actions
        .iter()
        .all(|row| within(row.precondition, usize::from(m)))
}

// Whether the effects name only atoms below `m`.
fn effects_named(effects: &[EffectRow], m: u8) -> bool
    ensures { Decides result (EffectsNamed m effects.now) }
{
    effects
        .iter()
        .all(|e| within(e.condition | e.add | e.delete, usize::from(m)))
}

// Whether the sets of a problem name only atoms below `m`.
fn named(first: u64, actions: &[ActionRow], effects: &[EffectRow], m: u8) -> bool
    ensures { Decides result (Named m first actions.now effects.now) }
{
    within(first, usize::from(m)) && preconditions_named(actions, m) && effects_named(effects, m)
}

// Whether numbers and rows are those of a problem, or the first reason why not. The five are the fields of a problem, which is not
// there before they are looked at.
fn check_rows(
    atoms: u8,
    hands: u8,
    first: u64,
    actions: &[ActionRow],
    effects: &[EffectRow],
) -> Result<(), Refusal>
    ensures { MatchResult result
        (λ _. Loads atoms hands first actions.now effects.now)
        (λ e. LoadDeclines atoms hands first actions.now effects.now e) }
{
    if !placed(actions, effects.len()) {
        return Err(Refusal::WrongPlace);
    }
    if !sized(atoms, hands, actions, effects.len()) {
        return Err(Refusal::OutOfRange);
    }
    if !named(first, actions, effects, atoms) {
        return Err(Refusal::UnknownAtom);
    }
    Ok(())
}

impl<'a> Problem<'a> {
    // The problem of one atom and one hand in which nothing can be done: others are loaded into it.
    pub fn blank() -> Problem<'a>
        ensures { Consists result 1 1 0 [] [] }
    {
        Problem {
            atoms: 1,
            hands: 1,
            first: 0,
            actions: &[],
            effects: &[],
        }
    }

    // The problem of these numbers and rows, or why they are not those of one: places first, then sizes, then atoms.
    pub fn new(
        atoms: u8,
        hands: u8,
        first: u64,
        actions: &'a [ActionRow],
        effects: &'a [EffectRow],
    ) -> Result<Problem<'a>, Refusal>
        ensures { MatchResult result
            (λ p. Loads atoms hands first actions.now effects.now
            × Consists p atoms hands first actions.now effects.now)
            (λ e. LoadDeclines atoms hands first actions.now effects.now e) }
    {
        check_rows(atoms, hands, first, actions, effects)?;
        Ok(Problem {
            atoms,
            hands,
            first,
            actions,
            effects,
        })
    }

    // Becomes the problem of these numbers and rows; what they are not allowed to be is refused, and changes nothing.
    pub fn load(
        &mut self,
        atoms: u8,
        hands: u8,
        first: u64,
        actions: &'a [ActionRow],
        effects: &'a [EffectRow],
    ) -> Result<(), Refusal>
        ensures { MatchResult result
            (λ _. Loads atoms hands first actions.now effects.now
            × Consists self.new atoms hands first actions.now effects.now)
            (λ e. LoadDeclines atoms hands first actions.now effects.now e × (self.new ≡ self.old)) }
    {
        *self = Problem::new(atoms, hands, first, actions, effects)?;
        Ok(())
    }
}
