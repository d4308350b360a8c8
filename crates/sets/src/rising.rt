ghost use Rattle.std.specs.Prelude.{◌≡◌, count_ones};
ghost use Rattle.std.specs.Iterator.{at_most};
ghost use Rattle.sets.specs.Sets.{Takes};

use crate::masks::{lowest, rest};

// The members of a set in rising order: the next one is the number of zeros in which the mask ends.
#[derive(Drop)]
pub struct Rising {
    left: u64,
}

// The members of a set, the lowest first.
pub fn members_of(set: u64) -> Rising
    ensures { result.left ≡ set }
{
    Rising { left: set }
}

impl Iterator for Rising {
    type Item = u32;

    ghost next_gives = { λ s r t. Takes s.left r t.left };

    ghost remaining = { λ s. at_most (count_ones s.left) };

    fn next(&mut self) -> Option<u32> {
        let member = lowest(self.left)?;
        self.left = rest(self.left);
        Some(member)
    }
}
