#![tactic(auto)]
// A plain forward search over firm steps, breadth first: the yardstick that a planner is compared with, and the line that shows
// a step. The search is exact: a plan is a shortest firm run to the goal, it says that there is none within the limit just where
// there is none, that it is full only where more states can be reached than it may remember, and it declines exactly what
// cannot be asked. Only want of memory is left open.
mod forward;
mod found;
mod lines;
mod reached;
mod tree;

pub use forward::search;
pub use found::{Fault, Found};
pub use lines::step_line;
