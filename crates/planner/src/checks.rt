ghost use Rattle.std.specs.Result.{MatchResult};
ghost use Rattle.claim.specs.Turns.{Passes, Declines, plan_checks};

use outlook::Outlook;
use problem::{Question, Refusal};
use sets::{apart, within};
use store::Store;

// The checks of plan, in their order, where its list has so much room.
pub(crate) fn check<O: Outlook, S: Store>(
    outlook: &O,
    store: &S,
    question: Question,
    room: usize,
) -> Result<(), Refusal>
    ensures { MatchResult result
        (λ _. Passes (plan_checks (O.task outlook.now) (S.meaning store.now) question room))
        (λ e. Declines (plan_checks (O.task outlook.now) (S.meaning store.now) question room) e) }
{
    let goal = question.goal;
    let atoms = usize::from(outlook.problem().atoms);
    if !within(goal.need, atoms) || !within(goal.avoid, atoms) {
        return Err(Refusal::UnknownAtom);
    }
    if !apart(goal.need, goal.avoid) {
        return Err(Refusal::SharedAtom);
    }
    if question.limit > 32 {
        return Err(Refusal::BadLevel);
    }
    if question.budget > 1_000_000 {
        return Err(Refusal::BadBudget);
    }
    if room < usize::from(question.limit) {
        return Err(Refusal::TooShort);
    }
    if store.kept() + store.passed() + question.budget > 16_000_000 {
        return Err(Refusal::StoreCounts);
    }
    Ok(())
}
