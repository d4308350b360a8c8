use store::Position;

// An open position of a search, the step that made it due, and where the work on it begins among the nodes.
#[derive(Clone, Copy)]
pub struct Frame {
    pub position: Position,
    pub step: u64,
    pub base: usize,
}
