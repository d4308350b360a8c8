#![tactic(auto)]
// Outlooks: which pairs of atoms no firm run of so many steps can reach together.
mod graph_outlook;
mod needs;
mod open_outlook;
mod outlook;

pub use graph_outlook::GraphOutlook;
pub use needs::holds_barred;
pub use open_outlook::OpenOutlook;
pub use outlook::Outlook;
