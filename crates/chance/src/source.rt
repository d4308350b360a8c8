ghost use Rattle.std.specs.Prelude.{min, ◌<◌, MatchResult};
ghost use Rattle.sets.specs.Sets.{Marks};
ghost use Rattle.problem.specs.Problems.{Consists};
ghost use Rattle.problem.specs.Declines.{Loads, LoadDeclines};

use problem::{ActionRow, EffectRow, Problem, Refusal};
use sets::all_below;

// The numbers and rows of a problem, with lists of its own.
#[derive(Drop)]
pub struct Source {
    pub atoms: u8,
    pub hands: u8,
    pub first: u64,
    pub actions: Vec<ActionRow>,
    pub effects: Vec<EffectRow>,
}

impl Source {
    // The set of its atoms.
    pub fn all_atoms(&self) -> u64
        ensures { Marks result (λ k. k < min self.now.atoms 64) }
    {
        all_below(usize::from(self.atoms))
    }

    // The problem of these numbers and rows, or why they are not those of one.
    pub fn problem(&self) -> Result<Problem<'_>, Refusal>
        ensures { MatchResult result
            (λ p. Loads self.now.atoms self.now.hands self.now.first self.now.actions.items self.now.effects.items
            × Consists p self.now.atoms self.now.hands self.now.first self.now.actions.items self.now.effects.items)
            (λ e. LoadDeclines self.now.atoms self.now.hands self.now.first self.now.actions.items self.now.effects.items e) }
    {
        Problem::new(
            self.atoms,
            self.hands,
            self.first,
            &self.actions,
            &self.effects,
        )
    }
}
