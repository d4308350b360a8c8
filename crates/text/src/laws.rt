ghost use Rattle.text.specs.Laws.{OneOutcome, ReadExactly, ReadBack, OneProblem, OneMore};

// That every text has one reading, and that problems and their texts give each other.
pub fn laws_of_text()
    ensures one { OneOutcome }
    ensures exact { ReadExactly }
    ensures back { ReadBack }
    ensures single { OneProblem }
    ensures grows { OneMore }
{}
