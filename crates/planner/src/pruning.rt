ghost use Rattle.planner.specs.Paths.{Pruned};

use crate::dropping::barred;
use outlook::Outlook;
use problem::Goal;
use regression::Dismissal;

// Lets work at a level be dropped: at level 0 only the first state is looked for, and above it what is barred there is reached by no run.
// It is no closure, since its impl is what says which goals may be dismissed.
#[derive(Drop)]
pub(crate) struct Pruning<'a, O> {
    pub(crate) outlook: &'a O,
    pub(crate) level: u8,
}

impl<'a, O: Outlook> Dismissal for Pruning<'a, O> {
    ghost dismissed = { λ p. Pruned (O.Outlook.task p.outlook.now) (O.Outlook.view p.outlook.now) p.level };

    fn dismisses(&self, region: Goal) -> bool {
        if self.level == 0 {
            !region.met_by(self.outlook.problem().first)
        } else {
            barred(self.outlook, self.level, region.need)
        }
    }
}
