use crate::outcome::Outcome;

// What a call of plan answers.
#[derive(Clone, Copy)]
pub struct Report {
    pub outcome: Outcome,
    // the steps of the plan, 0 without one
    pub steps: u32,
    // the positions that were opened, and of these the kept, the passed over and the ones left open
    pub opened: u32,
    pub kept: u32,
    pub passed_over: u32,
    pub left_open: u32,
}
