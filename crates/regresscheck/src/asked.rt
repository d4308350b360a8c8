use problem::{Goal, Problem};

// The states that are asked for: all, those that do not hold a pair of atoms, or one.
#[derive(Clone, Copy)]
pub enum Asked {
    All,
    Without(u64),
    Only(u64),
}

// What regression is asked of a problem with so many states: what leads into `aim`, for the states that are asked for.
#[derive(Clone, Copy)]
pub struct Query<'a> {
    pub problem: Problem<'a>,
    pub states: u64,
    pub aim: Goal,
    pub asked: Asked,
}
