ghost use Rattle.std.specs.Prelude.{◌≡◌};
ghost use Rattle.plain.specs.declared.found.Fault.TheVariants.{Declined, NoMemory};

use problem::Refusal;
use std::alloc::AllocError;

// What a search finds.
#[derive(Drop)]
pub enum Found {
    // the steps of a firm run that reaches the goal
    Plan(Vec<u64>),
    // no such run within the limit
    NotWithin,
    // more states than the search may remember
    Full,
}

// Why a search finds nothing at all.
#[derive(Clone, Copy)]
pub enum Fault {
    // the question is not one that can be asked
    Declined(Refusal),
    // memory was wanting
    NoMemory,
}

impl From<Refusal> for Fault {
    ghost from_gives = { λ e r. r ≡ Declined e };

    fn from(e: Refusal) -> Fault {
        Fault::Declined(e)
    }
}
