#![tactic(auto)]
// Numbers that look like chance and are the same in every run, problems drawn by them, the model valuation, and counts of what was seen.
mod counting;
mod drawing;
mod model;
mod numbers;
mod source;

pub use counting::count;
pub use drawing::{Sizes, draw_problem};
pub use model::{
    MODEL_ACTIONS, MODEL_ATOMS, MODEL_EFFECTS, MODEL_FIRST, MODEL_HANDS, model_valuation,
};
pub use numbers::Chance;
pub use source::Source;
