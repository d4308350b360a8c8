ghost use Rattle.std.specs.Prelude.{Decides};
ghost use Rattle.problem.specs.Runs.{Goal};

use problem::Goal;

// What allows nodes to be dropped unseen: nobody asks for a step from the states of their regions, be it that no run gets there
// or that other states are looked for.
pub trait Dismissal {
    // the goals whose states nobody asks for
    ghost dismissed: { Self → Goal → Type 0 };

    fn dismisses(&self, region: Goal) -> bool
        ensures { Decides result (dismissed self.now region) };
}
