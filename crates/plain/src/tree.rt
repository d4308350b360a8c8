ghost use Rattle.std.specs.Prelude.{◌≡◌};
ghost use Rattle.plain.specs.declared.tree.Stop.TheVariants.{NoMemory};

use crate::reached::Reached;
use problem::Problem;
use std::alloc::{AllocError, AllocFailed};

mod growing;
mod path;

// Why a tree stops growing.
#[derive(Clone, Copy)]
pub(crate) enum Stop {
    Full,
    NoMemory,
}

impl From<AllocError> for Stop {
    ghost from_gives = { λ _ r. r ≡ NoMemory };

    fn from(_e: AllocError) -> Stop {
        Stop::NoMemory
    }
}

impl<T: Drop> From<AllocFailed<T>> for Stop {
    ghost from_gives = { λ _ r. r ≡ NoMemory };

    fn from(_e: AllocFailed<T>) -> Stop {
        Stop::NoMemory
    }
}

// What a tree grows by: the states of a problem, none in more than `limit` steps, and at most `most` of them.
#[derive(Clone, Copy)]
pub(crate) struct Bounds<'a> {
    pub problem: &'a Problem<'a>,
    pub limit: u8,
    pub most: usize,
}

// The states reached so far. Each names the one before it by its place, since the list is the queue of the search as well.
#[derive(Drop)]
pub(crate) struct Tree {
    reached: Vec<Reached>,
}
