#![tactic(auto)]
// Problems: actions with conditional effects, what they do, and which steps are firm.
mod actions;
mod effect;
mod examples;
mod goal;
mod making;
mod orders;
mod problem;
mod question;
mod refusal;
mod rows;
mod theorems;

pub use actions::{Change, change_in, fire_alike, state_after};
pub use examples::examples_stand;
pub use goal::Goal;
pub use problem::Problem;
pub use question::Question;
pub use refusal::Refusal;
pub use rows::{ActionRow, EffectRow};
pub use theorems::{firm_runs_stand, firm_steps_stand};
