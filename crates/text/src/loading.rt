ghost use Rattle.std.specs.Prelude.{MatchResult};
ghost use Rattle.problem.specs.Problems.{Consists};
ghost use Rattle.problem.specs.Declines.{Loads, LoadDeclines};

use crate::checker::Taken;
use problem::{ActionRow, EffectRow, Problem, Refusal};

impl Taken {
    // The problem of the numbers that were read and of these rows, or why they are not those of one.
    pub fn problem<'a>(
        self,
        actions: &'a [ActionRow],
        effects: &'a [EffectRow],
    ) -> Result<Problem<'a>, Refusal>
        ensures { MatchResult result
            (λ p. Loads self.atoms self.hands self.first actions.now effects.now
            × Consists p self.atoms self.hands self.first actions.now effects.now)
            (λ e. LoadDeclines self.atoms self.hands self.first actions.now effects.now e) }
    {
        Problem::new(self.atoms, self.hands, self.first, actions, effects)
    }
}
