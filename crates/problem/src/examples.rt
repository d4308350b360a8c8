ghost use Rattle.problem.specs.Examples.{SweepEnds, CheckAndSweep, PostAndSweep, CrossedNotFirm, UndoneEndsWithout};

// What the definitions say of the model valuation.
pub fn examples_stand()
    ensures sweep { SweepEnds }
    ensures check { CheckAndSweep }
    ensures post { PostAndSweep }
    ensures crossed { CrossedNotFirm }
    ensures undone { UndoneEndsWithout }
{}
