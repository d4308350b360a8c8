ghost use Rattle.std.specs.Prelude.{◌<◌, length};
ghost use Rattle.sets.specs.Sets.{Marks};
ghost use Rattle.problem.specs.Problems.{task_of};
ghost use Rattle.graph.specs.Levels.{action as act, Clash};
ghost use Rattle.graph.specs.Tables.{Touches, NodesOf, ClashesOf, level_of};

use crate::layer::Layer;
use crate::masks::union_of;
use crate::table::{Links, Move, Nodes};
use sets::{single, without};
use std::array;

// The actions that use of `deletes`, surely delete of `uses`, or need of `barred`.
pub(crate) fn touching(links: &Links<'_>, uses: u64, deletes: u64, barred: u64) -> u64
    ensures { Marks result (Touches links.now.moves uses deletes barred) }
{
    union_of(&links.users, deletes)
        | union_of(&links.deleters, uses)
        | union_of(&links.needers, barred)
}

// What clashes with an action.
fn clashing(links: &Links<'_>, layer: &Layer, index: usize) -> Nodes
    requires { index < 64 }
    ensures { index < length links.now.problem.now.actions.now
        → NodesOf (task_of links.now.problem.now) (Clash (task_of links.now.problem.now) (level_of layer.now) (act index)) result }
{
    let Move {
        needs,
        uses,
        deletes,
    } = links.moves[index];
    let barred = union_of(layer.exclusive, needs);
    let touched = touching(links, uses, deletes, barred);
    Nodes {
        actions: without(touched, single(index as u32)),
        noops: deletes | barred,
    }
}

// For each action what clashes with it.
pub(crate) fn clashes_of(links: &Links<'_>, layer: &Layer) -> [Nodes; 64]
    ensures { ClashesOf (task_of links.now.problem.now) (level_of layer.now) result }
{
    array::from_fn(|index| clashing(links, layer, index))
}
