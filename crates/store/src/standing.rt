ghost use Rattle.std.specs.Prelude.{◌*◌, ◌^◌};
ghost use Rattle.store.specs.Positions.{Covers, at, goal_of};
ghost use Rattle.store.specs.Histories.{PositionsAtMost};

// There are only so many positions over m atoms.
pub fn few_positions_stand()
    ensures { PositionsAtMost (λ m. 32 * 3 ^ m) }
{}

// Need {1} at level 5 covers need {1, 2} with avoid {0} at level 3, and not need {1} at level 6.
pub fn examples_stand()
    ensures covers { Covers (at 5 (goal_of 2 0)) (at 3 (goal_of 6 1)) }
    ensures higher { Covers (at 5 (goal_of 2 0)) (at 6 (goal_of 2 0)) → ⊥ }
{}
