ghost use Rattle.std.specs.Prelude.{◌≡◌, MatchResult};
ghost use Rattle.sets.specs.Sets.{Within};
ghost use Rattle.text.specs.Texts.{size_is, first_is, action_is, effect_is};
ghost use Rattle.text.specs.Misfits.{Fit, fault_of, refusal_of};

use crate::fault::ProblemFault;
use problem::{EffectRow, Refusal};
use sets::within;

// Why the values of a record are not allowed, read or written.
#[derive(Clone, Copy)]
pub(crate) enum Misfit {
    // a number out of range, or one record too many
    Range,
    // an atom that the problem has not
    Atom,
}

impl Misfit {
    // The fault of a record that was read at `at`.
    pub(crate) fn fault(self, at: usize) -> ProblemFault
        ensures { result ≡ fault_of self at }
    {
        match self {
            Misfit::Range => ProblemFault::Range(at),
            Misfit::Atom => ProblemFault::Atom(at),
        }
    }
}

// The refusal to write such a record.
impl From<Misfit> for Refusal {
    ghost from_gives = { λ e r. r ≡ refusal_of e };

    fn from(e: Misfit) -> Refusal {
        match e {
            Misfit::Range => Refusal::OutOfRange,
            Misfit::Atom => Refusal::UnknownAtom,
        }
    }
}

// Whether a problem of so many atoms has all that are in a set.
fn named(set: u64, atoms: u8) -> Result<(), Misfit>
    ensures { MatchResult result (λ _. Within atoms set) (λ k. (k ≡ Misfit.Atom) × (Within atoms set → ⊥)) }
{
    if within(set, usize::from(atoms)) {
        Ok(())
    } else {
        Err(Misfit::Atom)
    }
}

// Whether there may be so many atoms and hands. Crate problem tests them too, with all else of a problem, for rows that come from no text.
pub(crate) fn size_fits(atoms: u8, hands: u8) -> Result<(), Misfit>
    ensures { Fit 0 0 0 (size_is atoms hands) result }
{
    if matches!(atoms, 1..=64) && matches!(hands, 1..=4) {
        Ok(())
    } else {
        Err(Misfit::Range)
    }
}

// Whether a problem of so many atoms may have this first state.
pub(crate) fn first_fits(first: u64, atoms: u8) -> Result<(), Misfit>
    ensures { Fit 0 0 atoms (first_is first) result }
{
    named(first, atoms)
}

// Whether a further action may have this precondition.
pub(crate) fn action_fits(actions: usize, precondition: u64, atoms: u8) -> Result<(), Misfit>
    ensures { Fit actions 0 atoms (action_is precondition) result }
{
    if actions >= 64 {
        return Err(Misfit::Range);
    }
    named(precondition, atoms)
}

// Whether the latest action, with so many effects, may have this one too.
pub(crate) fn effect_fits(latest: usize, effect: EffectRow, atoms: u8) -> Result<(), Misfit>
    ensures { Fit 0 latest atoms (effect_is effect) result }
{
    if latest >= 8 {
        return Err(Misfit::Range);
    }
    named(effect.condition | effect.add | effect.delete, atoms)
}
