use problem::Goal;

// A part of a stack of nodes: `count` of them from `start` on, the work on one goal. The stack is lent, since no planner crate
// uses a heap.
#[derive(Clone, Copy)]
pub struct Part {
    pub start: usize,
    pub count: usize,
}

// A step, and the region from every state of which it leads into the goal.
#[derive(Clone, Copy)]
pub struct Due {
    pub step: u64,
    pub region: Goal,
}

// What working on a part of the stack finds, and how many nodes are left of the part. No Result: to be done is no answer, and
// to lack room is no error, since the part stands as it is and work on it goes on later.
#[derive(Clone, Copy)]
pub enum Found {
    // this is made due
    Made(Due, usize),
    // no node is left
    Done,
    // the stack is too short for one more node
    NoRoom(usize),
}
