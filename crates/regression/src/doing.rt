ghost use Rattle.std.specs.Prelude.{◌≡◌, bit_or};

use std::ops::BitOr;

// What is in a set in every state between two masks, and what is in it in any of them.
#[derive(Clone, Copy, Default)]
pub(crate) struct Bounds {
    pub(crate) sure: u64,
    pub(crate) may: u64,
}

impl BitOr for Bounds {
    type Output = Bounds;

    ghost bitor_gives = { λ a b r. (r.sure ≡ bit_or a.sure b.sure) × (r.may ≡ bit_or a.may b.may) };

    fn bitor(self, other: Bounds) -> Bounds {
        Bounds {
            sure: self.sure | other.sure,
            may: self.may | other.may,
        }
    }
}

// What an action gives and deletes, and what it must find.
#[derive(Clone, Copy)]
pub(crate) struct Doing {
    pub(crate) action: u32,
    pub(crate) give: Bounds,
    pub(crate) cut: Bounds,
    pub(crate) read: Bounds,
}

// What the actions of a step give and delete together.
#[derive(Clone, Copy)]
pub(crate) struct Totals {
    pub(crate) give: Bounds,
    pub(crate) cut: Bounds,
}
