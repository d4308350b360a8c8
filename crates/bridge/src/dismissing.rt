use problem::Goal;
use regression::Dismissal;

// Dismisses nothing.
#[derive(Drop)]
pub(crate) struct Nothing;

impl Dismissal for Nothing {
    ghost dismissed = { λ _ _. ⊥ };

    fn dismisses(&self, _region: Goal) -> bool {
        false
    }
}
