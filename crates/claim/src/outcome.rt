// How a call of plan ends.
#[derive(Clone, Copy)]
pub enum Outcome {
    // a shortest plan stands in the list
    Plan,
    // no run of any length reaches the goal
    Never,
    // no run within the limit reaches the goal
    NotWithin,
    // the budget did not suffice
    Spent,
}
