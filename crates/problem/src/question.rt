use crate::goal::Goal;

// What a planner is asked: to reach a goal in at most `limit` steps, opening at most `budget` positions.
#[derive(Clone, Copy)]
pub struct Question {
    pub goal: Goal,
    pub limit: u8,
    pub budget: u32,
}
