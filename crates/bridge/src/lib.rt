#![tactic(auto)]
// What the benchmarks of bench/ call through the static library. These functions promise nothing beyond being safe and ending:
// their answers are compared with those of plain Rust programs in the same run.
mod dismissing;
mod graphs;
mod planning;
mod random;
mod reading;
mod regressing;
mod review;
mod texts;
mod trying;

pub use graphs::bridge_graph;
pub use planning::{Planned, bridge_plan};
pub use regressing::{Worked, bridge_regression};
pub use review::bridge_review;
pub use texts::bridge_text;
pub use trying::bridge_try;
