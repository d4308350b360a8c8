#![tactic(auto)]
// The text of a problem: its records, reading with exact faults, writing through moved states, and the round trip.
mod bytes;
mod checker;
mod fault;
mod fits;
mod input;
mod laws;
mod loading;
mod place;
mod questions;
mod reader;
mod record;
mod whole;
mod writer;

pub use checker::Taken;
pub use fault::{Layer, ProblemFault, ProgramFault, RecordFault, Report};
pub use input::read_input;
pub use laws::laws_of_text;
pub use questions::{Asked, next_question};
pub use reader::read;
pub use record::{Found, Kind, Record, kind_at, record_at};
pub use whole::{text_length, write_problem};
pub use writer::{Back, BlankText, EndedText, SizedText, StartedText};
