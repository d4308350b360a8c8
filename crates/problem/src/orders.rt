ghost use Rattle.std.specs.Prelude.{◌≡◌, ℕ, ◌+◌, ◌-◌, ◌^◌, ◌<◌, ◌≤◌, Decides, MatchOption, MatchResult};
ghost use Rattle.sets.specs.Sets.{Has, Within, minus};
ghost use Rattle.problem.specs.Actions.{result_of};
ghost use Rattle.problem.specs.Firm.{Turn, Step};
ghost use Rattle.problem.specs.Orders.{EveryOrder};
ghost use Rattle.problem.specs.Problems.{task_of};
ghost use Rattle.problem.specs.Declines.{Tries, TryDeclines};

use crate::actions::{fire_alike, state_after};
use crate::problem::Problem;
use crate::refusal::Refusal;
use sets::{inside, members_of, within, without_one};

// The state after an action's turn, if the action may run in `state` and fires what it fires in `start`.
fn turn(problem: &Problem, start: u64, state: u64, action: usize) -> Option<u64>
    ensures { MatchOption result
        (Turn ((task_of problem.now).at action) start state → ⊥)
        (λ next. Turn ((task_of problem.now).at action) start state
        × next ≡ result_of ((task_of problem.now).at action) state) }
{
    let effects = problem.effects_of(action);
    let runs = inside(problem.precondition_of(action), state) && fire_alike(effects, start, state);
    runs.then(|| state_after(effects, state))
}

// Whether from `state` every order of the actions of `remaining` takes its turns and ends in `end`.
fn every_order(problem: &Problem, start: u64, state: u64, remaining: u64, end: u64) -> bool
    ensures { Decides result (EveryOrder (task_of problem.now).at start state remaining end) }
{
    if remaining == 0 {
        return state == end;
    }
    // a loop and no `all`: the recursion is a plain one, and in a closure it would need clauses of its own
    for action in members_of(remaining) {
        let Some(next) = turn(problem, start, state, action as usize) else {
            return false;
        };
        let rest = without_one(remaining, action);
        if !every_order(problem, start, next, rest, end) {
            return false;
        }
    }
    true
}

// Where the order that takes the lowest action first ends: every order of a firm step ends there.
fn lowest_first(problem: &Problem, start: u64, step: u64) -> u64
    ensures { (end : ℕ) → EveryOrder (task_of problem.now).at start start step end → result ≡ end }
{
    let mut state = start;
    for action in members_of(step) {
        state = state_after(problem.effects_of(action as usize), state);
    }
    state
}

impl<'a> Problem<'a> {
    // Whether a set of action numbers is a step: actions of the problem, at most one a hand.
    pub fn is_step(&self, step: u64) -> bool
        ensures { Decides result (Step (task_of self.now) step) }
    {
        within(step, self.actions.len()) && step.count_ones() <= u32::from(self.hands)
    }

    // The state in which a step ends; none if the step is not firm in `state`.
    pub fn try_step(&self, state: u64, step: u64) -> Result<Option<u64>, Refusal>
        ensures { MatchResult result
            (λ t. Within self.now.atoms state × Step (task_of self.now) step × Tries (task_of self.now) state step t)
            (λ e. TryDeclines (task_of self.now) state step e) }
    {
        if !within(state, self.atoms as usize) {
            return Err(Refusal::UnknownAtom);
        }
        if !self.is_step(step) {
            return Err(Refusal::BadStep);
        }
        let end = lowest_first(self, state, step);
        let firm = every_order(self, state, state, step, end);
        Ok(firm.then_some(end))
    }
}
