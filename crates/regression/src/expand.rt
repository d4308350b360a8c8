ghost use Rattle.std.specs.Prelude.{◌≡◌, ℕ, ◌^◌, ◌<◌, true, ◌≢◌};
ghost use Rattle.std.specs.Int.Count.{ones};
ghost use Rattle.sets.specs.Sets.{Has, Apart};
ghost use Rattle.problem.specs.Problems.{task_of};
ghost use Rattle.regression.specs.Nodes.{WithAction, Hopeless, Expanded, closed};

use crate::doings::Doings;
use crate::node::{Next, Node};
use crate::trial::Trial;
use crate::verdict::Verdict;
use problem::{Goal, Problem};
use sets::{all_below, apart, without, without_one};

// The node with one more action chosen: its precondition must hold.
fn with_action(problem: &Problem, node: Node, action: u32) -> Node
    requires { action < 64 }
    ensures { WithAction (task_of problem.now) node action result }
{
    let Goal { need, avoid } = node.region;
    Node {
        chosen: node.chosen | 1 << action,
        candidates: without_one(node.candidates, action),
        region: Goal {
            need: need | problem.precondition_of(action as usize),
            avoid,
        },
    }
}

// A node of the chosen step alone.
fn alone(chosen: u64, region: Goal) -> Node
    ensures { result ≡ closed chosen region }
{
    Node {
        chosen,
        candidates: 0,
        region,
    }
}

impl Trial<'_> {
    // Whether the chosen actions surely hurt one another, so that no step that has them all is firm.
    fn hopeless(self) -> bool
        ensures { result ≡ true → Hopeless (task_of self.entry.problem.now) self.entry.step self.entry.region }
    {
        Doings::new(self.problem, self.step, self.region).friendly() == Verdict::No
    }

    // A node with a candidate to decide on: with it, and without it.
    fn choose(self, candidates: u64) -> Next
        requires some { candidates ≢ 0 }
        requires apart { Apart self.step candidates }
        ensures { Expanded (task_of self.entry.problem.now) self.entry.aim
            (record { chosen = self.entry.step; candidates = candidates; region = self.entry.region }) result }
    {
        if self.step.count_ones() > 1 && self.hopeless() {
            return Next::Drop;
        }
        let action = candidates.trailing_zeros();
        let node = Node {
            chosen: self.step,
            candidates,
            region: self.region,
        };
        let without_it = Node {
            candidates: without_one(candidates, action),
            ..node
        };
        Next::Split(with_action(self.problem, node, action), without_it)
    }

    // A node with nothing more to choose: judged, and split at the atom that is asked for.
    fn settle(self) -> Next
        ensures { Expanded (task_of self.entry.problem.now) self.entry.aim (closed self.entry.step self.entry.region) result }
    {
        let Goal { need, avoid } = self.region;
        match self.judge() {
            Verdict::Yes => Next::Due(self.shrink()),
            Verdict::No => Next::Drop,
            Verdict::Ask(x) => {
                let holding = Goal {
                    need: need | 1 << x,
                    avoid,
                };
                let lacking = Goal {
                    need,
                    avoid: avoid | 1 << x,
                };
                Next::Split(alone(self.step, holding), alone(self.step, lacking))
            }
        }
    }
}

// What becomes of a node, in work on `aim`. Candidates that are no actions, or are chosen already, count for nothing.
pub(crate) fn expand(problem: &Problem, node: Node, aim: Goal) -> Next
    ensures { Expanded (task_of problem.now) aim node result }
{
    let Node {
        chosen,
        candidates,
        region,
    } = node;
    if !apart(region.need, region.avoid) || !problem.is_step(chosen) {
        return Next::Drop;
    }
    let trial = Trial {
        problem,
        step: chosen,
        region,
        aim,
    };
    let open = without(candidates & all_below(problem.actions.len()), chosen);
    if open != 0 && chosen.count_ones() < problem.hands as u32 {
        trial.choose(open)
    } else {
        trial.settle()
    }
}
