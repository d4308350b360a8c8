#![tactic(auto)]
// The planner: plan, review and clear, the calls on one store of which the claim holds.
mod asking;
mod checks;
mod dropping;
mod ending;
mod frame;
mod looking;
mod next;
mod path;
mod planning;
mod pruning;
mod search;
mod teller;
mod working;
mod writing;

pub use asking::{clear, review};
pub use planning::plan;
pub use teller::Teller;
