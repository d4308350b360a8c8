ghost use Rattle.std.specs.Prelude.{◌≡◌};
ghost use Rattle.problem.specs.Problems.{task_of};
ghost use Rattle.graph.specs.Tables.{move_is, sure_add_of, sure_delete_of};

use crate::masks::turned;
use crate::table::{Links, Move};
use problem::{Change, Problem, change_in};
use sets::without;
use std::array;

// What an action surely adds and deletes. An effect with empty condition fires in the empty state, and every effect fires in
// the state that has all atoms.
fn sure_change(problem: &Problem, index: usize) -> Change
    ensures add { result.add ≡ sure_add_of (task_of problem.now) index }
    ensures delete { result.delete ≡ sure_delete_of (task_of problem.now) index }
{
    let effects = problem.effects_of(index);
    let always = change_in(effects, 0);
    let ever = change_in(effects, u64::MAX);
    Change {
        add: without(always.add, ever.delete),
        delete: without(always.delete, ever.add),
    }
}

// What an action needs, uses and surely deletes.
fn move_of(problem: &Problem, index: usize) -> Move
    ensures { result ≡ move_is (task_of problem.now) index }
{
    let needs = problem.precondition_of(index);
    let change = sure_change(problem, index);
    Move {
        needs,
        uses: needs | change.add,
        deletes: change.delete,
    }
}

// The moves, and for each atom the actions that need it, use it and surely delete it.
pub(crate) fn links_of<'a>(problem: &'a Problem<'a>) -> Links<'a>
    ensures { result.problem.now ≡ problem.now }
{
    let moves: [Move; 64] = array::from_fn(|index| move_of(problem, index));
    Links {
        problem,
        moves,
        needers: turned(&moves.map(|m| m.needs)),
        users: turned(&moves.map(|m| m.uses)),
        deleters: turned(&moves.map(|m| m.deletes)),
    }
}
