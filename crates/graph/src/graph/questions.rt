ghost use Rattle.std.specs.Prelude.{◌≡◌, suc, ◌<◌, ◌≤◌, T, Decides, MatchResult};
ghost use Rattle.sets.specs.Sets.{Marks};
ghost use Rattle.problem.specs.declared.refusal.Refusal.TheVariants.{BadLevel as TooHigh};
ghost use Rattle.graph.specs.Levels.{Same, Closing};
ghost use Rattle.graph.specs.Graphs.{atoms_of, facts_at, row_at, level_in, bars_in};
ghost use Rattle.graph.specs.Questions.{Answered};

use crate::asking::{check_level, check_question};
use crate::graph::Graph;
use crate::masks::has;
use problem::Refusal;
use sets::{all_below, without};

impl Graph {
    // The facts of a level.
    pub fn facts_at(&self, level: u8) -> Result<u64, Refusal>
        ensures { MatchResult result (λ set. (level ≤ 32) × (set ≡ facts_at self.now level)) (λ e. (e ≡ TooHigh) × (32 < level)) }
    {
        check_level(level)?;
        Ok(self.facts[level as usize])
    }

    // The facts of a level that are exclusive there with an atom.
    pub fn exclusive_with(&self, level: u8, atom: u8) -> Result<u64, Refusal>
        ensures { Answered level (atom < atoms_of self.now) (λ set. set ≡ row_at self.now level atom) result }
    {
        check_question(level, atom < self.atoms)?;
        Ok(self.layer(level as usize).exclusive[atom as usize])
    }

    // The atoms of the problem that a level bars together with an atom.
    pub fn barred_with(&self, level: u8, atom: u8) -> Result<u64, Refusal>
        ensures { Answered level (atom < atoms_of self.now)
            (λ set. Marks set (λ k. (k < atoms_of self.now) × T (bars_in self.now level atom k))) result }
    {
        let facts = self.facts_at(level)?;
        let exclusive = self.exclusive_with(level, atom)?;
        let all = all_below(self.atoms as usize);
        if !has(facts, atom as u32) {
            return Ok(all);
        }
        Ok(without(all, without(facts, exclusive)))
    }

    // Whether a level bars two atoms together.
    pub fn bars(&self, level: u8, a: u8, b: u8) -> Result<bool, Refusal>
        ensures { Answered level ((a < atoms_of self.now) × (b < atoms_of self.now))
            (λ x. x ≡ bars_in self.now level a b) result }
    {
        check_question(level, a < self.atoms && b < self.atoms)?;
        let row = self.barred_with(level, a)?;
        Ok(has(row, b as u32))
    }

    // Whether a level has the facts and the exclusions of the next one.
    fn same_as_next(&self, n: usize) -> bool
        requires { n < 32 }
        ensures { Decides result (Same (level_in self.now n) (level_in self.now (suc n))) }
    {
        let here = self.layer(n);
        let next = self.layer(n + 1);
        here.facts == next.facts && here.exclusive == next.exclusive
    }

    // The closing level: the least that has the facts and the exclusions of the next one.
    pub fn closing(&self) -> Option<u8>
        ensures { Closing (level_in self.now) result }
    {
        (0..32).find(|n| self.same_as_next(*n as usize))
    }
}
