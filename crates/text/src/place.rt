ghost use Rattle.std.specs.Prelude.{Decides};
ghost use Rattle.text.specs.Records.{code_of};
ghost use Rattle.text.specs.Readings.{InPlace};

use crate::record::Kind;

// How far the text of a problem has come.
#[derive(Clone, Copy)]
pub(crate) enum Place {
    // nothing yet
    Start,
    // the size
    Sized,
    // the first state, and no action yet
    Started,
    // at least one action
    Acted,
}

impl Place {
    // Whether a record of that kind may stand here.
    pub(crate) fn takes(self, kind: Kind) -> bool
        ensures { Decides result (InPlace self (code_of kind)) }
    {
        match self {
            Place::Start => matches!(kind, Kind::Size),
            Place::Sized => matches!(kind, Kind::First),
            Place::Started => matches!(kind, Kind::Action | Kind::End),
            Place::Acted => matches!(kind, Kind::Action | Kind::Effect | Kind::End),
        }
    }
}
