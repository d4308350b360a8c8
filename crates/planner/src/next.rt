use store::Position;

// What is next in work on the lowest position: a firm step takes the first state to it, a step makes one due below it, or nothing.
#[derive(Clone, Copy)]
pub enum Next {
    Found(u64),
    Opens(u64, Position),
    Done,
}
