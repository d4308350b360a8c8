ghost use Rattle.std.specs.Prelude.{◌≡◌};
ghost use Rattle.claim.specs.Turns.{report};
ghost use Rattle.planner.specs.Endings.{no_plan, plan_of};

use claim::{Outcome, Report};

// How a search ended: the outcome, the steps of the plan (0 without one), the positions opened, and those left open.
#[derive(Clone, Copy)]
pub struct Ending {
    pub outcome: Outcome,
    pub steps: u32,
    pub opened: u32,
    pub left: u32,
}

impl Ending {
    pub(crate) fn without_plan(outcome: Outcome, opened: u32, left: u32) -> Ending
        ensures { result ≡ no_plan outcome opened left }
    {
        Ending {
            outcome,
            steps: 0,
            opened,
            left,
        }
    }

    // A plan has a step for each position that is open when it is found.
    pub(crate) fn with_plan(opened: u32, left: u32) -> Ending
        ensures { result ≡ plan_of opened left }
    {
        Ending {
            outcome: Outcome::Plan,
            steps: left,
            opened,
            left,
        }
    }

    // What is answered, with what the store kept and passed over on the way.
    pub(crate) fn report(self, kept: u32, passed_over: u32) -> Report
        ensures { result ≡ report self.outcome self.steps self.opened kept passed_over self.left }
    {
        Report {
            outcome: self.outcome,
            steps: self.steps,
            opened: self.opened,
            kept,
            passed_over,
            left_open: self.left,
        }
    }
}
