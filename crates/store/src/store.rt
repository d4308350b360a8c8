ghost use Rattle.std.specs.Prelude.{◌≡◌};
ghost use Rattle.store.specs.Positions.{target_of};
ghost use Rattle.store.specs.Stores.{Meaning, Blank, Telling, Lawful};

use crate::answer::Answer;
use crate::position::Position;
use problem::Refusal;

// A store of positions that no firm run reaches.
pub trait Store {
    // What telling takes: a store is told only by whoever can make one of these. The planner takes stores whose teller is a
    // type of its own that nobody else can make, so whoever holds such a store can review and clear it, and not tell it.
    type Teller;

    // all that a caller knows of the store
    ghost meaning: { Self → Meaning };

    // what each store proves of its meaning
    ghost laws: { Lawful meaning };

    // Whether a position is covered.
    fn review(&self, position: &Position) -> bool
        ensures { result ≡ (meaning self.now).covers (target_of position.now) };

    // How many positions were kept since the last clear.
    fn kept(&self) -> u32
        ensures { result ≡ (meaning self.now).kept };

    // How many were passed over since the last clear.
    fn passed(&self) -> u32
        ensures { result ≡ (meaning self.now).passed };

    // Takes a position that no firm run reaches, or answers that it is covered. Once the counts together are 16,000,000, it
    // declines whatever it is told.
    fn tell(&mut self, teller: &Self::Teller, position: &Position) -> Result<Answer, Refusal>
        ensures { Telling (meaning self.old) (target_of position.now) result (meaning self.new) };

    // Covers nothing from now on, and counts from 0.
    fn clear(&mut self)
        ensures { Blank (meaning self.new) };
}
