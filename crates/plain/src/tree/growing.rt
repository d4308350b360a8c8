ghost use Rattle.std.specs.Prelude.{◌≡◌, ℕ, ◌<◌, ◌≤◌, length, Decides, MatchOption, MatchResult};
ghost use Rattle.sets.specs.Sets.{Within};
ghost use Rattle.problem.specs.Firm.{FirmStep};
ghost use Rattle.problem.specs.Problems.{task_of};
ghost use Rattle.plain.specs.Trees.{entry, Seen};
ghost use Rattle.plain.specs.Growth.{rows_of, Growing, Remembered, Unremembered, Stops, Reaches, Grows};

use super::{Bounds, Stop, Tree};
use crate::reached::Reached;
use problem::Problem;
use sets::{next_fit, single};
use std::alloc::Global;

// Where a step ends that is firm in `state`, a state of the problem's atoms.
fn firm_end(problem: &Problem, state: u64, step: u64) -> Option<u64>
    ensures { MatchOption result
        (Within problem.now.atoms state → (end : ℕ) → FirmStep (task_of problem.now) state step end → ⊥)
        (λ end. FirmStep (task_of problem.now) state step end) }
{
    problem.try_step(state, step).unwrap_or(None)
}

impl Tree {
    // Whether a state was reached.
    fn has_seen(&self, state: u64) -> bool
        ensures { Decides result (Seen (rows_of self.now) state) }
    {
        next_fit(&self.reached, 0, &state).is_some()
    }

    // Remembers a state, unless it was reached before.
    fn remember(&mut self, e: Reached, most: usize) -> Result<(), Stop>
        ensures { MatchResult result
            (λ _. Remembered most self.old e self.new)
            (λ stop. Unremembered most self.old e stop) }
    {
        if self.has_seen(e.state) {
            return Ok(());
        }
        if self.reached.len() >= most {
            return Err(Stop::Full);
        }
        self.reached.push(e)?;
        Ok(())
    }

    // The tree that has only the first state.
    pub(crate) fn planted(heap: Global, bounds: &Bounds) -> Result<Tree, Stop>
        ensures { MatchResult result
            (λ tree. Growing (task_of bounds.now.problem.now) bounds.now.limit bounds.now.most tree 0)
            (λ stop. Stops (task_of bounds.now.problem.now) bounds.now.limit bounds.now.most stop) }
    {
        let mut tree = Tree {
            reached: Vec::new(heap),
        };
        let root = Reached {
            state: bounds.problem.first,
            from: 0,
            step: 0,
            depth: 0,
        };
        tree.remember(root, bounds.most)?;
        Ok(tree)
    }

    // The state of the entry `i`.
    pub(crate) fn state_of(&self, i: usize) -> Option<u64>
        ensures { MatchOption result (length (rows_of self.now) ≤ i)
            (λ s. (i < length (rows_of self.now)) × (s ≡ (entry (rows_of self.now) i).state)) }
    {
        self.reached.get(i).map(|e| e.state)
    }

    // Takes a step out of the entry `from`, unless that lies at the limit, and remembers where it ends; whether it was taken.
    fn reach(&mut self, bounds: &Bounds, from: usize, step: u64) -> Result<bool, Stop>
        requires { Growing (task_of bounds.now.problem.now) bounds.now.limit bounds.now.most self.old from }
        ensures { MatchResult result
            (λ took. Reaches (task_of bounds.now.problem.now) bounds.now.limit bounds.now.most self.old from step took self.new)
            (λ stop. Stops (task_of bounds.now.problem.now) bounds.now.limit bounds.now.most stop) }
    {
        let before = self.reached[from];
        if before.depth >= bounds.limit {
            return Ok(false);
        }
        let Some(state) = firm_end(bounds.problem, before.state, step) else {
            return Ok(false);
        };
        let reached = Reached {
            state,
            from,
            step,
            depth: before.depth + 1,
        };
        self.remember(reached, bounds.most)?;
        Ok(true)
    }

    // Takes out of the entry `from` each firm step that has `step` and, besides, only actions from `action` on. A part of a firm
    // step is firm, so only firm steps are made wider.
    pub(crate) fn grow(
        &mut self,
        bounds: &Bounds,
        from: usize,
        step: u64,
        action: u32,
    ) -> Result<(), Stop>
        requires { Growing (task_of bounds.now.problem.now) bounds.now.limit bounds.now.most self.old from }
        ensures { MatchResult result
            (λ _. Grows (task_of bounds.now.problem.now) bounds.now.limit bounds.now.most self.old from step action self.new)
            (λ stop. Stops (task_of bounds.now.problem.now) bounds.now.limit bounds.now.most stop) }
    {
        if action as usize >= bounds.problem.actions.len() {
            return Ok(());
        }
        let wider = step | single(action);
        if self.reach(bounds, from, wider)? {
            self.grow(bounds, from, wider, action + 1)?;
        }
        self.grow(bounds, from, step, action + 1)
    }
}
