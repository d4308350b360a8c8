ghost use Rattle.problem.specs.Problems.{task_of};
ghost use Rattle.regression.specs.Reaching.{Surely};
ghost use Rattle.regression.specs.Nodes.{Shrunk};

use crate::trial::Trial;
use problem::Goal;
use sets::{members_of, without_one};

impl Trial<'_> {
    // Takes out of `avoid`, one by one, every atom without which the step still surely leads into the goal: a position with less to
    // avoid covers more once it is known to be out of reach.
    pub(crate) fn shrink(self) -> Goal
        requires { Surely (task_of self.problem.now) self.aim self.step self.region }
        ensures { Shrunk (task_of self.entry.problem.now) self.entry.aim self.entry.step self.entry.region result }
    {
        let Trial {
            problem,
            step,
            region,
            aim,
        } = self;
        let mut avoid = region.avoid;
        for atom in members_of(region.avoid) {
            let fewer = without_one(avoid, atom);
            let fewer_avoided = Trial {
                problem,
                step,
                region: Goal {
                    avoid: fewer,
                    ..region
                },
                aim,
            };
            if fewer_avoided.surely() {
                avoid = fewer;
            }
        }
        Goal { avoid, ..region }
    }
}
