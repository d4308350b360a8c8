ghost use Rattle.std.specs.Prelude.{◌≡◌, ◌+◌, ◌<◌, length};
ghost use Rattle.problem.specs.Runs.{Meets};
ghost use Rattle.store.specs.Stores.{Meaning};
ghost use Rattle.claim.specs.Turns.{Passes, plan_checks};
ghost use Rattle.planner.specs.Works.{Shape, Seeks};
ghost use Rattle.planner.specs.Endings.{Ran, UnderWay, Progressed, WhenOn};

use crate::dropping::dropped;
use crate::ending::Ending;
use crate::path::Path;
use crate::teller::Teller;
use crate::working::work;
use claim::Outcome;
use outlook::Outlook;
use problem::Question;
use std::ops::ControlFlow;
use store::{Position, Store};

// Searches round by round for a plan, and writes it to the list.
pub(crate) fn search<O: Outlook, S: Store<Teller = Teller>>(
    outlook: &O,
    store: &mut S,
    question: Question,
    list: &mut [u64],
) -> Ending
    requires { Passes (plan_checks (O.task outlook.now) (S.meaning store.old) question (length list.old)) }
    ensures { Ran (O.task outlook.now) (O.view outlook.now) question result list.old list.new
        (S.meaning store.old) (S.meaning store.new) }
{
    if question.goal.met_by(outlook.problem().first) {
        return Ending::with_plan(0, 0);
    }
    let mut path = Path::new();
    let mut opened = 0;
    for failed in 0..question.limit {
        // an ending is the answer here either way, so there is nothing for `?` to hand on
        match search_round(outlook, store, question, failed, opened, &mut path, list) {
            ControlFlow::Continue(count) => opened = count,
            ControlFlow::Break(ending) => return ending,
        }
    }
    Ending::without_plan(Outcome::NotWithin, opened, 0)
}

// The round after so many that failed: its goal is dropped, or opened and worked on until nothing is open.
// What is lent is passed one by one, as to `work`: its clauses say which of the store, the path and the list a round changes.
fn search_round<O: Outlook, S: Store<Teller = Teller>>(
    outlook: &O,
    store: &mut S,
    question: Question,
    failed: u8,
    mut opened: u32,
    path: &mut Path,
    list: &mut [u64],
) -> ControlFlow<Ending, u32>
    requires none { path.old.depth ≡ 0 }
    requires short { failed < question.limit }
    requires missed { Meets question.goal (O.task outlook.now).first → ⊥ }
    requires shape { Shape (O.task outlook.now) path.old }
    requires sought { UnderWay (O.task outlook.now) (O.view outlook.now) question (S.meaning store.old) (length list.old) failed
        path.old opened }
    ensures progress { (m₀ : Meaning)
        → Seeks (O.task outlook.now) (O.view outlook.now) question m₀ (S.meaning store.old) failed
        path.old opened
        → Progressed (O.task outlook.now) (O.view outlook.now) question m₀ (S.meaning store.new) (failed + 1)
        path.new list.old list.new result }
    ensures shape { Shape (O.task outlook.now) path.new }
    ensures unwritten { WhenOn result (λ k. list.new ≡ list.old) }
    ensures none { WhenOn result (λ k. path.new.depth ≡ 0) }
{
    let round = failed + 1;
    let position = Position::new(round, question.goal).unwrap();
    if dropped(outlook, store, &position) {
        return ControlFlow::Continue(opened);
    }
    if opened == question.budget {
        return ControlFlow::Break(Ending::without_plan(Outcome::Spent, opened, 0));
    }
    path.open(outlook, position, 0);
    opened += 1;
    // the path grows and shrinks while it is worked on
    while path.depth > 0 {
        opened = work(outlook, store, question, opened, path, list)?;
    }
    ControlFlow::Continue(opened)
}
