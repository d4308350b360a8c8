ghost use Rattle.std.specs.Prelude.{length};
ghost use Rattle.claim.specs.Turns.{Plans, plans};
ghost use Rattle.claim.specs.Claim.{GoesOn};

use crate::checks::check;
use crate::dropping::shut;
use crate::ending::Ending;
use crate::search::search;
use crate::teller::Teller;
use claim::{Outcome, Report};
use outlook::Outlook;
use problem::{Question, Refusal};
use store::Store;

// Looks for a shortest plan for the goal that is asked for, in at most as many steps and with at most as many positions opened as the
// question allows. A plan stands in the list afterwards, one step an entry; what was rejected on the way is told to the store.
pub fn plan<O: Outlook, S: Store<Teller = Teller>>(
    outlook: &O,
    store: &mut S,
    question: Question,
    list: &mut [u64],
) -> Result<Report, Refusal>
    ensures promise { Plans (O.task outlook.now) (O.view outlook.now) question result
        list.old list.new (S.meaning store.old) (S.meaning store.new) }
    ensures claim { GoesOn (O.task outlook.now) (S.meaning store.old)
        (plans (O.view outlook.now) question result list.old list.new) (S.meaning store.new) }
{
    check(outlook, store, question, list.len())?;
    if shut(outlook, question.goal) {
        return Ok(Ending::without_plan(Outcome::Never, 0, 0).report(0, 0));
    }
    let kept = store.kept();
    let passed = store.passed();
    let ending = search(outlook, store, question, list);
    Ok(ending.report(store.kept() - kept, store.passed() - passed))
}
