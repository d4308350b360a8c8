ghost use Rattle.sets.specs.Laws.{SameMembers, Members, InclusionTests, OneLess, Bounds};

// The laws of sets.
pub fn sets_stand()
    ensures same { SameMembers }
    ensures members { Members }
    ensures tests { InclusionTests }
    ensures less { OneLess }
    ensures bounds { Bounds }
{}
