ghost use Rattle.std.specs.Prelude.{◌≡◌, ◌<◌, T};
ghost use Rattle.sets.specs.Sets.{Marks};
ghost use Rattle.problem.specs.Firm.{Task};
ghost use Rattle.problem.specs.Problems.{task_of, Fits};
ghost use Rattle.graph.specs.Questions.{Answered};
ghost use Rattle.outlook.specs.Outlooks.{View, Lawful};

use problem::{Problem, Refusal};

// An outlook on the problem that it was made from: which pairs of atoms no firm run of so many steps can reach together, and
// perhaps a closing level, whose pairs no run at all can reach. Whoever writes one says what it means, and shows that it is lawful.
pub trait Outlook {
    // the task of the problem that it was made from
    ghost task: { Self → Task };

    ghost fits: { (o : Self) → Fits (task o) };

    // what it means
    ghost view: { Self → View };

    ghost lawful: { (o : Self) → Lawful (task o) (view o) };

    // The problem that it was made from.
    fn problem(&self) -> &Problem<'_>
        ensures { task_of result.now ≡ task self.now };

    // Whether two atoms are barred together at a level.
    fn bars(&self, level: u8, a: u8, b: u8) -> Result<bool, Refusal>
        ensures { Answered level ((a < (task self.now).atoms) × (b < (task self.now).atoms))
            (λ x. x ≡ (view self.now).bars level a b) result };

    // The atoms of the problem that are barred together with an atom at a level.
    fn barred_with(&self, level: u8, atom: u8) -> Result<u64, Refusal>
        ensures { Answered level (atom < (task self.now).atoms)
            (λ set. Marks set (λ k. (k < (task self.now).atoms) × T ((view self.now).bars level atom k))) result };

    // The closing level, if there is one.
    fn closing(&self) -> Option<u8>
        ensures { result ≡ (view self.now).closing };
}
