ghost use Rattle.std.specs.Prelude.{◌≡◌, ℕ};
ghost use Rattle.sets.specs.Sets.{Has};
ghost use Rattle.regression.specs.Verdicts.{both_of, OfAll, Asks};

use crate::verdict::Verdict;
use sets::{lowest, members_of};

// The verdict on two things together.
pub(crate) fn both(a: Verdict, b: Verdict) -> Verdict
    ensures { result ≡ both_of a b }
{
    match (a, b) {
        (Verdict::Yes, b) => b,
        (Verdict::No, _) | (_, Verdict::No) => Verdict::No,
        (Verdict::Ask(x), _) => Verdict::Ask(x),
    }
}

// The verdict on all members of a set, by the verdict on each: the first No decides.
pub(crate) fn all_of<F: Fn(u32) -> Verdict>(set: u64, judge: F) -> Verdict
    requires { (i : ℕ) → Has set i → F.pre judge i }
    ensures { OfAll (Has set) (F.post judge) result }
{
    let mut verdict = Verdict::Yes;
    for i in members_of(set) {
        verdict = both(verdict, judge(i));
        if verdict == Verdict::No {
            return Verdict::No;
        }
    }
    verdict
}

// Asks for the lowest of the atoms that are left to ask for; where there is none, what may be wrong is wrong.
pub(crate) fn ask_for(ask: u64) -> Verdict
    ensures { Asks ask result }
{
    lowest(ask).map_or(Verdict::No, Verdict::Ask)
}
