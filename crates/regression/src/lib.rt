#![tactic(auto)]
// Regression: which positions a step makes due below an open position.
mod calm;
mod dismissal;
mod doing;
mod doings;
mod effects;
mod expand;
mod found;
mod goal;
mod hurt;
mod idle;
mod joining;
mod judge;
mod next;
mod node;
mod opening;
mod rest;
mod shrink;
mod summing;
mod sums;
mod totals;
mod trial;
mod verdict;

pub use dismissal::Dismissal;
pub use found::{Due, Found, Part};
pub use next::{ROOM, next_due};
pub use node::Node;
pub use opening::begin_work;
