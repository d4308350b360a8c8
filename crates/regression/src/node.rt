use problem::Goal;

// Work on a goal: the steps that have all of the actions `chosen` and otherwise only some of `candidates`, from the states of
// `region`.
#[derive(Clone, Copy, Default)]
pub struct Node {
    pub chosen: u64,
    pub candidates: u64,
    pub region: Goal,
}

// What becomes of a node: nothing stands for it, it makes a region due with the chosen step, or it falls into two parts.
#[derive(Clone, Copy)]
pub(crate) enum Next {
    Drop,
    Due(Goal),
    Split(Node, Node),
}
