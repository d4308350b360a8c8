#![tactic(auto)]
// Positions, and stores of positions that no firm run reaches.
mod answer;
mod bare;
mod keeper;
mod position;
mod row;
mod since;
mod standing;
mod store;

pub use answer::Answer;
pub use bare::Bare;
pub use keeper::Keeper;
pub use position::Position;
pub use row::KeptRow;
pub use since::kept_since_clear;
pub use standing::{examples_stand, few_positions_stand};
pub use store::Store;
