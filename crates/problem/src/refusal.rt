ghost use Rattle.std.specs.Prelude.{◌≡◌};
ghost use Rattle.problem.specs.Refusals.{number_of};

// Why a call declines. Each case has its number, which users read.
#[derive(Clone, Copy, PartialEq, Eq)]
pub enum Refusal {
    // the text ends inside a record or before its end record
    CutText = 1,
    // a kind of record that there is not
    UnknownKind = 2,
    // a record, or the effects of an action, in the wrong place
    WrongPlace = 3,
    // atoms, hands, actions, effects or bytes out of range
    OutOfRange = 4,
    // a set or a pair names an atom that the problem has not
    UnknownAtom = 5,
    // need and avoid share an atom
    SharedAtom = 6,
    // a level or a limit out of range
    BadLevel = 7,
    // a list or the bytes are too short
    TooShort = 8,
    // the store's counts would go too high
    StoreCounts = 9,
    // the budget is too high
    BadBudget = 10,
    // a step with an unknown action, or with too many
    BadStep = 11,
}

impl Refusal {
    // The number that users read; a conversion to `u8` would not say which number that is.
    pub fn number(self) -> u8
        ensures { result ≡ number_of self }
    {
        self as u8
    }
}
