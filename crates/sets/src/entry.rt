ghost use Rattle.std.specs.Prelude.{Decides};
ghost use Rattle.sets.specs.Search.{First};

// An entry of a list, and what entries of its kind are held against.
pub trait Entry {
    type Against;

    // when an entry fits what it is held against
    ghost fitting: { Self → Self.Against → Type 0 };

    fn fits(&self, against: &Self::Against) -> bool
        ensures { Decides result (fitting self.now against.now) };
}

// The first of `rows`, from the place `from` on, that fits.
pub fn next_fit<E: Entry>(rows: &[E], from: usize, against: &E::Against) -> Option<usize>
    ensures { First (λ e. E.fitting e against.now) rows.now from result }
{
    // a loop: with `find` along the places, what its closure says of an entry of any kind could not be shown
    for i in from..rows.len() {
        if rows[i].fits(against) {
            return Some(i);
        }
    }
    None
}
