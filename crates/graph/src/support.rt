ghost use Rattle.std.specs.Prelude.{Decides};
ghost use Rattle.sets.specs.Sets.{Marks};
ghost use Rattle.problem.specs.Problems.{task_of};
ghost use Rattle.graph.specs.Levels.{action as act, Together, Supports};
ghost use Rattle.graph.specs.Tables.{SupportsOf, level_of};

use crate::layer::Layer;
use crate::masks::union_of;
use problem::Problem;
use sets::{apart, inside};
use std::array;

// Whether the atoms of a set are facts of the level, no two of them exclusive.
fn together(layer: &Layer, set: u64) -> bool
    ensures { Decides result (Together (level_of layer.now) set) }
{
    inside(set, layer.facts) && apart(union_of(layer.exclusive, set), set)
}

// The atoms that an action supports; none past the last action.
fn supported_by(problem: &Problem, layer: &Layer, index: usize) -> u64
    ensures { Marks result (Supports (task_of problem.now) (level_of layer.now) (act index)) }
{
    let precondition = problem.precondition_of(index);
    let mut all = 0;
    for e in problem.effects_of(index) {
        if together(layer, precondition | e.condition) {
            all |= e.add;
        }
    }
    all
}

// For each action the atoms that it supports.
pub(crate) fn supports_of(problem: &Problem, layer: &Layer) -> [u64; 64]
    ensures { SupportsOf (task_of problem.now) (level_of layer.now) result }
{
    array::from_fn(|index| supported_by(problem, layer, index))
}
