ghost use Rattle.std.specs.Prelude.{◌<◌, ◌≤◌};
ghost use Rattle.sets.specs.Sets.{Inside, Apart};

use problem::Goal;
use sets::without;
use std::ops::RangeInclusive;

// Numbers that look like chance: the same seed gives the same ones.
#[derive(Drop)]
pub struct Chance {
    seed: u64,
}

impl Chance {
    pub fn new(seed: u64) -> Chance {
        Chance { seed }
    }

    fn next(&mut self) -> u64 {
        self.seed = self
            .seed
            .wrapping_mul(6364136223846793005)
            .wrapping_add(1442695040888963407);
        self.seed >> 33
    }

    // A number below `n`, or 0 where there is none.
    pub fn below(&mut self, n: u64) -> u64
        ensures { 0 < n → result < n }
    {
        if n == 0 { 0 } else { self.next() % n }
    }

    // A number of the range; the first one, where it has none.
    pub fn between(&mut self, range: RangeInclusive<u8>) -> u8
        ensures { range.start ≤ range.end → (range.start ≤ result) × (result ≤ range.end) }
    {
        let (low, high) = range.into_inner();
        if high < low {
            return low;
        }
        let more = self.below(u64::from(high - low) + 1);
        low + more as u8
    }
}

// About a half, a quarter or an eighth of a set of low numbers.
#[tactic(auto, using(crate::proofs::Parts::shared_inside))]
impl Chance {
    pub fn half(&mut self, set: u64) -> u64
        ensures { Inside result set }
    {
        self.next() & set
    }

    pub fn few(&mut self, set: u64) -> u64
        ensures { Inside result set }
    {
        self.next() & self.next() & set
    }

    pub fn rare(&mut self, set: u64) -> u64
        ensures { Inside result set }
    {
        self.next() & self.few(set)
    }
}

impl Chance {
    // A goal that names some of these atoms, none of them both to need and to avoid.
    pub fn goal(&mut self, atoms: u64) -> Goal
        ensures { Apart result.need result.avoid }
    {
        let need = self.half(atoms);
        let avoid = without(self.few(atoms), need);
        Goal { need, avoid }
    }
}
