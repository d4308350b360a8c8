ghost use Rattle.text.specs.Inputs.{Asks};

use crate::bytes::{set_at, word_at};
use crate::fault::ProgramFault;
use crate::record::{Kind, Record, kind_at, record_at};
use problem::{Goal, Question};

// A question that was read, with its values as they stand in the text, and where the next one would begin.
#[derive(Clone, Copy)]
pub struct Asked {
    pub question: Question,
    pub next: usize,
}

// The question at `at`, behind the problem; none where the text ends there.
pub fn next_question(text: &[u8], at: usize) -> Result<Option<Asked>, ProgramFault>
    ensures { Asks text.now at result }
{
    if at >= text.len() {
        return Ok(None);
    }
    // the kind first: a record of another kind is no question, even where its body is cut
    let Kind::Question = kind_at(text, at)? else {
        return Err(ProgramFault::After(at));
    };
    let found = record_at(text, at)?;
    let Record::Question(body) = found.record else {
        unreachable!();
    };
    let goal = Goal {
        need: set_at(body, 0),
        avoid: set_at(body, 8),
    };
    let question = Question {
        goal,
        limit: body[16],
        budget: word_at(body, 17),
    };
    Ok(Some(Asked {
        question,
        next: found.next,
    }))
}
