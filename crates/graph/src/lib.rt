#![tactic(auto)]
// The planning graph of a problem.
mod asking;
mod clash;
mod graph;
mod growth;
mod layer;
mod masks;
mod moves;
mod support;
mod table;
mod theorems;

pub use asking::check_question;
pub use graph::Graph;
pub use theorems::{first_levels_stand, levels_stand};
