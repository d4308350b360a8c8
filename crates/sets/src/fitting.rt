ghost use Rattle.std.specs.Prelude.{◌≡◌, ◌-◌, length};
ghost use Rattle.std.specs.Iterator.{at_most};
ghost use Rattle.sets.specs.Search.{NextFitting};

use crate::entry::{Entry, next_fit};

// The entries of a list that fit what they are held against, in their order.
#[derive(Drop)]
pub struct Fitting<'a, E: Entry> {
    rows: &'a [E],
    from: usize,
    against: &'a E::Against,
}

// The entries of `rows` that fit.
pub fn fitting_of<'a, E: Entry>(rows: &'a [E], against: &'a E::Against) -> Fitting<'a, E>
    ensures rows { result.rows.now ≡ rows.now }
    ensures from { result.from ≡ 0 }
    ensures against { result.against.now ≡ against.now }
{
    Fitting {
        rows,
        from: 0,
        against,
    }
}

impl<'a, E: Entry> Iterator for Fitting<'a, E> {
    type Item = &'a E;

    ghost next_gives = { λ s r t. NextFitting (λ e. E.fitting e s.against.now) s.rows.now s.from r t.from
        × (t.rows ≡ s.rows) × (t.against ≡ s.against) };

    ghost remaining = { λ s. at_most (length s.rows.now - s.from) };

    fn next(&mut self) -> Option<&'a E> {
        let i = next_fit(self.rows, self.from, self.against)?;
        self.from = i + 1;
        Some(&self.rows[i])
    }
}
