ghost use Rattle.std.specs.Prelude.{◌≡◌, ℕ, ◌<◌, length};
ghost use Rattle.problem.specs.Problems.{task_of};
ghost use Rattle.graph.specs.Turning.{Turned};
ghost use Rattle.graph.specs.Tables.{move_at, move_is, needs_of, uses_of, deletes_of};

use problem::Problem;

// What an action needs, what it needs or surely adds, and what it surely deletes.
#[derive(Clone, Copy)]
pub(crate) struct Move {
    pub(crate) needs: u64,
    pub(crate) uses: u64,
    pub(crate) deletes: u64,
}

// The moves of a problem, and the other way round: for each atom the actions that need it, use it and surely delete it. These are three
// relations and no rows of structs, since each is united over a set of its own.
#[derive(Drop)]
pub(crate) struct Links<'a> {
    pub(crate) problem: &'a Problem<'a>,
    pub(crate) moves: [Move; 64],
    pub(crate) needers: [u64; 64],
    pub(crate) users: [u64; 64],
    pub(crate) deleters: [u64; 64],
    ghost moved: { (k : ℕ) → k < length problem.now.actions.now → move_at moves k ≡ move_is (task_of problem.now) k },
    ghost needed: { Turned needers (needs_of moves) },
    ghost used: { Turned users (uses_of moves) },
    ghost deleted: { Turned deleters (deletes_of moves) },
}

// Some of the nodes: actions, and no-ops by their atoms.
#[derive(Clone, Copy)]
pub(crate) struct Nodes {
    pub(crate) actions: u64,
    pub(crate) noops: u64,
}
