ghost use Rattle.std.specs.Prelude.{◌≡◌, ℕ};
ghost use Rattle.sets.specs.Sets.{Has, Inside};
ghost use Rattle.regression.specs.Spans.{Union, UnionBy, opens, may_help};
ghost use Rattle.regression.specs.Doings.{Totalled};
ghost use Rattle.regression.specs.Told.{acts};

use crate::doing::{Bounds, Totals};
use crate::doings::Doings;
use sets::members_of;

// The union of the sets that `part` has for the members of a set.
fn union_of<F: Fn(u32) -> u64>(set: u64, part: F) -> u64
    requires { (i : ℕ) → Has set i → F.pre part i }
    ensures { UnionBy (F.post part) set result }
{
    let mut union = 0;
    for i in members_of(set) {
        union |= part(i);
    }
    union
}

impl Doings<'_> {
    // What the actions of a part of the step give and delete together.
    pub(crate) fn totals(&self, part: u64) -> Totals
        requires { Inside part self.now.step }
        ensures { Totalled (acts self.now) self.now.lo self.now.hi part result }
    {
        let mut give = Bounds::default();
        let mut cut = Bounds::default();
        for i in members_of(part) {
            let one = self.of(i);
            give = give | one.give;
            cut = cut | one.cut;
        }
        Totals { give, cut }
    }

    // What is open in the conditions of those effects of such actions that add an atom of `add` or delete one of `delete`.
    pub(crate) fn open_of(&self, part: u64, add: u64, delete: u64) -> u64
        ensures { Union (opens (acts self.now) self.now.lo self.now.hi add delete) part result }
    {
        union_of(part, |i| self.open_in(i, add, delete, 0))
    }

    // What the action `i` may give to a condition of which it does not surely delete an atom.
    fn help_of(&self, i: u32, condition: u64) -> u64
        requires { Has self.now.step i }
        ensures { result ≡ may_help (acts self.now) self.now.lo self.now.hi condition i }
    {
        let one = self.of(i);
        if one.cut.sure & condition == 0 {
            one.give.may
        } else {
            0
        }
    }

    // What the actions of a part of the step may give to a condition.
    pub(crate) fn help(&self, part: u64, condition: u64) -> u64
        requires { Inside part self.now.step }
        ensures { Union (may_help (acts self.now) self.now.lo self.now.hi condition) part result }
    {
        union_of(part, |i| self.help_of(i, condition))
    }
}
