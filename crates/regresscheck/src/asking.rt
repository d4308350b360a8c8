ghost use Rattle.regresscheck.specs.Asking.{Outside};

use crate::asked::Asked;
use problem::Goal;
use regression::Dismissal;
use sets::inside;

impl Dismissal for Asked {
    ghost dismissed = { Outside };

    fn dismisses(&self, region: Goal) -> bool {
        match self {
            Asked::All => false,
            Asked::Without(pair) => inside(*pair, region.need),
            Asked::Only(state) => !region.met_by(*state),
        }
    }
}

impl Asked {
    pub fn asks(&self, state: u64) -> bool {
        match self {
            Asked::All => true,
            Asked::Without(pair) => !inside(*pair, state),
            Asked::Only(only) => state == *only,
        }
    }
}
