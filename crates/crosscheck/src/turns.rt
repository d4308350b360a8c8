use problem::{Goal, Question, Refusal};

// A goal, and the fewest steps in which a firm run reaches it, if 32 are enough: the plain search says so.
#[derive(Clone, Copy)]
pub struct Aim {
    pub goal: Goal,
    pub fewest: Option<usize>,
}

impl Aim {
    // Whether no firm run of so many steps, 32 at most, reaches the goal.
    pub fn is_beyond(&self, steps: usize) -> bool {
        self.fewest.is_none_or(|fewest| fewest > steps)
    }
}

// What plan is asked with a list of so much room, the fewest steps to the goal, and why it has to decline, if it has to.
#[derive(Clone, Copy)]
pub struct Ask {
    pub question: Question,
    pub fewest: Option<usize>,
    pub room: usize,
    pub declined: Option<Refusal>,
}

impl Ask {
    pub fn aim(&self) -> Aim {
        Aim {
            goal: self.question.goal,
            fewest: self.fewest,
        }
    }
}

// A call on a store.
#[derive(Clone, Copy)]
pub enum Turn {
    Plan(Ask),
    // of the aim at this level, with the refusal, if there has to be one
    Review(u8, Aim, Option<Refusal>),
    Clear,
}
