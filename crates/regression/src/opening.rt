ghost use Rattle.std.specs.Prelude.{◌≡◌, ◌≤◌, length, Decides, MatchOption};
ghost use Rattle.problem.specs.Problems.{task_of};
ghost use Rattle.regression.specs.Roots.{Helps, Root, Begun};

use crate::found::Part;
use crate::node::Node;
use problem::{EffectRow, Goal, Problem};

// Whether an effect adds an atom that `aim` needs or deletes one that it avoids.
fn helps(effects: &[EffectRow], aim: Goal) -> bool
    ensures { Decides result (Helps aim effects.now) }
{
    effects
        .iter()
        .any(|e| e.add & aim.need | e.delete & aim.avoid != 0)
}

// The node with which work on `aim` begins.
fn root(problem: &Problem, aim: Goal) -> Node
    ensures { Root (task_of problem.now) aim result }
{
    let mut candidates = 0;

    // By the number, which `effects_of` asks for: with `enumerate` nobody would read the row.
    for i in 0..problem.actions.len() {
        if helps(problem.effects_of(i), aim) {
            candidates |= 1 << i;
        }
    }
    Node {
        candidates,
        ..Node::default()
    }
}

// Begins work on `aim` at the place `start` of the stack; not where the stack ends before it.
pub fn begin_work(problem: &Problem, aim: Goal, nodes: &mut [Node], start: usize) -> Option<Part>
    ensures { MatchOption result
        ((length nodes.old ≤ start) × (nodes.new ≡ nodes.old))
        (λ part. Begun (task_of problem.now) aim nodes.old nodes.new start part) }
{
    if start >= nodes.len() {
        return None;
    }
    nodes[start] = root(problem, aim);
    Some(Part { start, count: 1 })
}
