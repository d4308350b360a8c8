ghost use Rattle.std.specs.Prelude.{◌≡◌, ℕ, ◌+◌, ◌-◌, ◌*◌, ◌<◌, length};
ghost use Rattle.store.specs.Stores.{Meaning};
ghost use Rattle.planner.specs.Works.{Shape, Seeks};
ghost use Rattle.planner.specs.Endings.{UnderWay, Progressed, WhenOn};

use crate::ending::Ending;
use crate::looking::look;
use crate::next::Next;
use crate::path::Path;
use crate::teller::Teller;
use crate::writing::write_plan;
use claim::Outcome;
use outlook::Outlook;
use problem::Question;
use std::ops::ControlFlow;
use store::Store;

// Works on the lowest position until it comes to a plan, to a position to be opened below it, or to nothing more: then it is told.
// What is lent is passed one by one: each arm changes another of the store, the path and the list, and its clauses say which.
pub(crate) fn work<O: Outlook, S: Store<Teller = Teller>>(
    outlook: &O,
    store: &mut S,
    question: Question,
    opened: u32,
    path: &mut Path,
    list: &mut [u64],
) -> ControlFlow<Ending, u32>
    requires some { 0 < path.old.depth }
    requires shape { Shape (O.task outlook.now) path.old }
    requires sought { (n : ℕ) × UnderWay (O.task outlook.now) (O.view outlook.now) question (S.meaning store.old) (length list.old) n
        path.old opened }
    ensures progress { (m₀ : Meaning) (n : ℕ)
        → Seeks (O.task outlook.now) (O.view outlook.now) question m₀ (S.meaning store.old) n
        path.old opened
        → Progressed (O.task outlook.now) (O.view outlook.now) question m₀ (S.meaning store.new) n
        path.new list.old list.new result }
    ensures shape { Shape (O.task outlook.now) path.new }
    ensures unwritten { WhenOn result (λ k. list.new ≡ list.old) }
    ensures less { WhenOn result
        (λ k. 2 * (question.budget - k) + path.new.depth < 2 * (question.budget - opened) + path.old.depth) }
{
    let lowest = path.lowest();
    let depth = path.depth;
    let left = depth as u32;
    match look(outlook, store, path) {
        Next::Found(step) => {
            write_plan(&path.frames[..depth], step, list);
            ControlFlow::Break(Ending::with_plan(opened, left))
        }
        Next::Opens(step, position) => {
            if opened == question.budget {
                return ControlFlow::Break(Ending::without_plan(Outcome::Spent, opened, left));
            }
            path.open(outlook, position, step);
            ControlFlow::Continue(opened + 1)
        }
        Next::Done => {
            store.tell(&Teller::new(), &lowest.position).unwrap();
            path.close();
            ControlFlow::Continue(opened)
        }
    }
}
