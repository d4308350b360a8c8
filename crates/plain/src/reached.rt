ghost use Rattle.std.specs.Prelude.{◌≡◌};

use sets::Entry;

// A state that was reached: out of which entry, by which step, and in how many steps from the first state.
#[derive(Clone, Copy)]
pub(crate) struct Reached {
    pub state: u64,
    pub from: usize,
    pub step: u64,
    pub depth: u8,
}

// A reached state is held against a state: it fits where it is that state.
impl Entry for Reached {
    type Against = u64;

    ghost fitting = { λ e s. e.state ≡ s };

    fn fits(&self, against: &u64) -> bool {
        self.state == *against
    }
}
