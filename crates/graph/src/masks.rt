// A relation of numbers below 64 as 64 rows of sets.
ghost use Rattle.std.specs.Prelude.{ℕ, ◌<◌, Decides};
ghost use Rattle.sets.specs.Sets.{Has, Marks};
ghost use Rattle.graph.specs.Turning.{row, Turned};

use sets::{apart, members_of, single};
use std::array;

// Whether a set has a member.
pub(crate) fn has(set: u64, member: u32) -> bool
    ensures { Decides result (Has set member) }
{
    !apart(set, single(member))
}

// The union of the rows of a set. Regression has one over a closure; one for both would have a `requires` that a user can reach.
pub(crate) fn union_of(rows: &[u64; 64], of: u64) -> u64
    ensures { Marks result (λ g. (k : ℕ) × Has of k × Has (row rows.now k) g) }
{
    let mut all = 0;
    for k in members_of(of) {
        all |= rows[k as usize];
    }
    all
}

// The numbers whose rows have a member.
pub(crate) fn column(rows: &[u64; 64], member: usize) -> u64
    requires { member < 64 }
    ensures { Marks result (λ k. Has (row rows.now k) member) }
{
    let mut all = 0;
    for (k, row) in rows.iter().enumerate() {
        if has(*row, member as u32) {
            all |= single(k as u32);
        }
    }
    all
}

// The rows of a relation the other way round.
pub(crate) fn turned(rows: &[u64; 64]) -> [u64; 64]
    ensures { Turned result rows.now }
{
    array::from_fn(|member| column(rows, member))
}
