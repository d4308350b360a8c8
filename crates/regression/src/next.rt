ghost use Rattle.std.specs.Prelude.{◌≡◌, ℕ, take};
ghost use Rattle.problem.specs.Problems.{task_of};
ghost use Rattle.regression.specs.Stacks.{part_of, Treated, Finds};

use crate::dismissal::Dismissal;
use crate::expand::expand;
use crate::found::{Due, Found, Part};
use crate::node::{Next, Node};
use problem::{Goal, Problem};

// The nodes for which a part of the stack needs room: each split adds one, and leaves less to be decided.
pub const ROOM: usize = 129;

// What becomes of a node that may be dismissed.
fn treat<D: Dismissal>(problem: &Problem, aim: Goal, dismissal: &D, node: Node) -> Next
    ensures { Treated (task_of problem.now) aim (D.dismissed dismissal.now) node result }
{
    if dismissal.dismisses(node.region) {
        return Next::Drop;
    }
    expand(problem, node, aim)
}

// Works through the nodes of a part of the stack, the last first, until one makes a region due or none is left.
pub fn next_due<D: Dismissal>(
    problem: &Problem,
    aim: Goal,
    dismissal: &D,
    nodes: &mut [Node],
    part: Part,
) -> Found
    ensures finds { Finds (task_of problem.now) aim (D.dismissed dismissal.now)
        (part_of nodes.old part.start part.count) nodes.new part.start result }
    ensures below { take part.start nodes.new ≡ take part.start nodes.old }
{
    let Part { start, count } = part;
    if count > nodes.len().saturating_sub(start) {
        return Found::NoRoom(count);
    }
    let mut left = count;

    // No iterator: the stack grows and shrinks while it is worked through.
    while left > 0 {
        let top = start + (left - 1);
        match treat(problem, aim, dismissal, nodes[top]) {
            Next::Drop => left -= 1,
            Next::Due(region) => return Found::Made(
                Due {
                    step: nodes[top].chosen,
                    region,
                },
                left - 1,
            ),
            Next::Split(first, second) => {
                if top + 1 >= nodes.len() {
                    return Found::NoRoom(left);
                }
                nodes[top] = second;
                nodes[top + 1] = first;
                left += 1;
            }
        }
    }
    Found::Done
}
