// What telling takes: only the planner can make one, so a store whose teller this is hears of nothing that the planner did not reject.
#[derive(Drop)]
pub struct Teller {
    _only: (),
}

impl Teller {
    pub(crate) fn new() -> Teller {
        Teller { _only: () }
    }
}
