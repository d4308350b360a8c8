ghost use Rattle.std.specs.Prelude.{◌≡◌, ℕ, ◌-◌, ◌<◌};
ghost use Rattle.store.specs.Stores.{Meaning};
ghost use Rattle.claim.specs.Search.{Question};
ghost use Rattle.claim.specs.Turns.{NamedBelow};
ghost use Rattle.planner.specs.Frames.{frame_at};
ghost use Rattle.planner.specs.Works.{Shape, Seeks, Nexts};

use crate::dropping::dropped;
use crate::next::Next;
use crate::path::Path;
use outlook::Outlook;
use store::{Position, Store};

// Looks for what is next below the lowest position: due positions that are not to be opened are passed by.
pub(crate) fn look<O: Outlook, S: Store>(outlook: &O, store: &S, path: &mut Path) -> Next
    requires some { 0 < path.old.depth }
    requires named { NamedBelow (O.task outlook.now).atoms (frame_at path.old.frames (path.old.depth - 1)).position.goal }
    requires shape { Shape (O.task outlook.now) path.old }
    ensures nexts { (a : Question) (m₀ : Meaning) (n k : ℕ)
        → Seeks (O.task outlook.now) (O.view outlook.now) a m₀ (S.meaning store.now) n path.old k
        → Nexts (O.task outlook.now) (O.view outlook.now) a m₀ (S.meaning store.now) n path.new k result }
    ensures shape { Shape (O.task outlook.now) path.new }
    ensures depth { path.new.depth ≡ path.old.depth }
    ensures frames { path.new.frames ≡ path.old.frames }
{
    let level = path.lowest().position.level - 1;
    // no iterator: what is due depends on the path, which changes with each that is taken
    while let Some(due) = path.take_due(outlook) {
        if level == 0 {
            if due.region.met_by(outlook.problem().first) {
                return Next::Found(due.step);
            }
        } else {
            let position = Position::new(level, due.region).unwrap();
            if !dropped(outlook, store, &position) {
                return Next::Opens(due.step, position);
            }
        }
    }
    Next::Done
}
