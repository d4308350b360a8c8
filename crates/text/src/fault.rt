ghost use Rattle.std.specs.Prelude.{◌≡◌, Some};
ghost use Rattle.text.specs.declared.fault.ProblemFault.TheVariants.{Record as InRecord};
ghost use Rattle.text.specs.declared.fault.ProgramFault.TheVariants.{Problem as InProblem};
ghost use Rattle.text.specs.Faults.{layer_name, record_report, problem_report, program_report};

use problem::Refusal;
use std::fmt;

// Why no record could be read, with the offset of its kind byte.
#[derive(Clone, Copy)]
pub enum RecordFault {
    // the text ends before the record does
    Cut(usize),
    // there is no such kind
    Unknown(usize),
}

// Why no problem could be read, with the offset of the kind byte of the record at fault.
#[derive(Clone, Copy)]
pub enum ProblemFault {
    // no record could be read
    Record(RecordFault),
    // the text ends before its end record: the text's length
    NoEnd(usize),
    // a record of a known kind that may not stand here
    Place(usize),
    // atoms or hands out of range, or an action or an effect too many
    Range(usize),
    // a set names an atom that the problem has not
    Atom(usize),
    // the lists for the rows are too short
    Lists,
}

// Why the program's input could not be taken.
#[derive(Clone, Copy)]
pub enum ProgramFault {
    // no problem, or no record, could be read
    Problem(ProblemFault),
    // more bytes than the program takes
    Long,
    // a record after the problem that is no question
    After(usize),
}

// Which layer found a fault.
#[derive(Clone, Copy)]
pub enum Layer {
    Record,
    Problem,
    Program,
}

impl fmt::Display for Layer {
    ghost output = { λ l. Some (layer_name l) };

    fn fmt<W: fmt::Write>(&self, f: &mut fmt::Formatter<W>) -> fmt::Result {
        f.write_str(match self {
            Layer::Record => "record",
            Layer::Problem => "problem",
            Layer::Program => "program",
        })
    }
}

// What a user is told of a fault.
#[derive(Clone, Copy)]
pub struct Report {
    pub refusal: Refusal,
    pub offset: usize,
    pub layer: Layer,
}

impl From<RecordFault> for ProblemFault {
    ghost from_gives = { λ e r. r ≡ InRecord e };

    fn from(e: RecordFault) -> ProblemFault {
        ProblemFault::Record(e)
    }
}

impl From<ProblemFault> for ProgramFault {
    ghost from_gives = { λ e r. r ≡ InProblem e };

    fn from(e: ProblemFault) -> ProgramFault {
        ProgramFault::Problem(e)
    }
}

impl From<RecordFault> for ProgramFault {
    ghost from_gives = { λ e r. r ≡ InProblem (InRecord e) };

    fn from(e: RecordFault) -> ProgramFault {
        ProgramFault::Problem(ProblemFault::Record(e))
    }
}

// A named method for each fault and no `From`: with that, a `?` could trade a fault for its report unseen.
impl RecordFault {
    pub fn report(self) -> Report
        ensures { result ≡ record_report self }
    {
        let (refusal, offset) = match self {
            RecordFault::Cut(offset) => (Refusal::CutText, offset),
            RecordFault::Unknown(offset) => (Refusal::UnknownKind, offset),
        };
        Report {
            refusal,
            offset,
            layer: Layer::Record,
        }
    }
}

impl ProblemFault {
    pub fn report(self) -> Report
        ensures { result ≡ problem_report self }
    {
        let (refusal, offset) = match self {
            ProblemFault::Record(e) => return e.report(),
            ProblemFault::NoEnd(offset) => (Refusal::CutText, offset),
            ProblemFault::Place(offset) => (Refusal::WrongPlace, offset),
            ProblemFault::Range(offset) => (Refusal::OutOfRange, offset),
            ProblemFault::Atom(offset) => (Refusal::UnknownAtom, offset),
            ProblemFault::Lists => (Refusal::TooShort, 0),
        };
        Report {
            refusal,
            offset,
            layer: Layer::Problem,
        }
    }
}

impl ProgramFault {
    pub fn report(self) -> Report
        ensures { result ≡ program_report self }
    {
        let (refusal, offset) = match self {
            ProgramFault::Problem(e) => return e.report(),
            ProgramFault::Long => (Refusal::OutOfRange, 0),
            ProgramFault::After(offset) => (Refusal::WrongPlace, offset),
        };
        Report {
            refusal,
            offset,
            layer: Layer::Program,
        }
    }
}
