ghost use Rattle.std.specs.Prelude.{◌≤◌};

mod building;
mod questions;

// The planning graph of a problem, levels 0 to 32, as one flat table: the facts of each level, and 64 rows a level, one for
// each atom, of those exclusive with it. The row of atom a at level n is at place 64 n + a.
#[derive(Drop)]
pub struct Graph {
    atoms: u8,
    facts: [u64; 33],
    exclusive: [u64; 2112],
    ghost few: { atoms ≤ 64 },
}
