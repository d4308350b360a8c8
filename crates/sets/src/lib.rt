#![tactic(auto)]
// Sets of atoms as 64-bit masks, the one list that takes entries until it is full, and the one search along a slice.
mod entry;
mod filled;
mod fitting;
mod laws;
mod masks;
mod rising;

pub use entry::{Entry, next_fit};
pub use filled::Filled;
pub use fitting::{Fitting, fitting_of};
pub use laws::sets_stand;
pub use masks::{
    all_below, apart, inside, lowest, rest, single, size, within, without, without_one,
};
pub use rising::{Rising, members_of};
