ghost use Rattle.std.specs.Prelude.{◌≡◌, ◌<◌, ◌≤◌, true, MatchResult};
ghost use Rattle.problem.specs.declared.refusal.Refusal.TheVariants.{BadLevel as TooHigh};
ghost use Rattle.graph.specs.Questions.{Answered};

use problem::Refusal;

// Whether there is a level of this number: they go up to 32.
pub(crate) fn check_level(level: u8) -> Result<(), Refusal>
    ensures { MatchResult result (λ _. level ≤ 32) (λ e. (e ≡ TooHigh) × (32 < level)) }
{
    if level > 32 {
        Err(Refusal::BadLevel)
    } else {
        Ok(())
    }
}

// Whether a question about a level may be answered: its level is at most 32, and its atoms are known. Who asks tests its own
// atoms, since one question has an atom, one a pair, and one a set.
pub fn check_question(level: u8, known: bool) -> Result<(), Refusal>
    ensures { Answered level (known ≡ true) (λ _. Unit {0}) result }
{
    check_level(level)?;
    if known {
        Ok(())
    } else {
        Err(Refusal::UnknownAtom)
    }
}
