#![tactic(auto)]
// The law of a search, lists of turns on one store, and the claim that holds of every such list.
ghost use Rattle.claim.specs.Claim.{RunsAreLists, EveryListOfTurns};
ghost use Rattle.claim.specs.Agree.{StoresAgree};
ghost use Rattle.claim.specs.Falls.{NotIdle, NotEarly, NotInvented, NotBusy, NotRepeated, NotCopied, NotBlind};
ghost use Rattle.claim.specs.Examples.{NotWithinTwo, SpentAtTwo, PlanOfOne, NeverThenDeclined, FiveTurns};

mod outcome;
mod report;

pub use outcome::Outcome;
pub use report::Report;

// A firm run is a list of steps.
pub fn runs_are_lists()
    ensures { RunsAreLists }
{}

// The claim over every list of turns.
pub fn every_list_of_turns_stands()
    ensures { EveryListOfTurns }
{}

// Outcomes and steps do not depend on the store.
pub fn stores_agree()
    ensures { StoresAgree }
{}

// There are such lists of turns.
pub fn some_lists_of_turns_stand()
    ensures fails { NotWithinTwo }
    ensures spent { SpentAtTwo }
    ensures plan { PlanOfOne }
    ensures never { NeverThenDeclined }
    ensures five { FiveTurns }
{}

// What falls by the promise of plan alone.
pub fn these_fall()
    ensures idle { NotIdle }
    ensures early { NotEarly }
    ensures invented { NotInvented }
    ensures busy { NotBusy }
    ensures repeated { NotRepeated }
    ensures copied { NotCopied }
    ensures blind { NotBlind }
{}
