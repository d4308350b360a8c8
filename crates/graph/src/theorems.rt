ghost use Rattle.graph.specs.Theorems.{LevelsSound, ExclusiveBoth, BarsLoosen, NeighboursStay, BarredUnreached, ClosedUnreached};
ghost use Rattle.graph.specs.Valuation.{FirstLevels};

// The theorems on the levels of the planning graph.
pub fn levels_stand()
    ensures sound { LevelsSound }
    ensures both { ExclusiveBoth }
    ensures loosen { BarsLoosen }
    ensures stay { NeighboursStay }
    ensures barred { BarredUnreached }
    ensures closed { ClosedUnreached }
{}

// The first levels of the model valuation.
pub fn first_levels_stand()
    ensures { FirstLevels }
{}
