use crate::frame::Frame;
use regression::Node;

mod moving;

// The open positions of a search, the goal first and the lowest last, and the work left on each: the nodes from where the work on it
// begins up to where that on the next one does.
// The planner has no heap, so each list is an array of the most it may come to, with a count of what is in use.
// What holds of a path depends on the task that is searched. No field says it: a path would have to carry its outlook's problem, and
// a ghost field has to be a proposition, while `Shape` is data that proofs take apart. So the contracts say it.
#[derive(Clone, Copy)]
pub struct Path {
    pub frames: [Frame; 32],
    pub depth: usize,
    pub nodes: [Node; 4128],
    pub len: usize,
}
