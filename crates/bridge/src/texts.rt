use crate::reading::Rows;
use problem::{Goal, Question, Refusal};
use sets::Filled;
use text::{ProgramFault, next_question, read_input, write_problem};

fn refusal_number(refusal: Refusal) -> u64 {
    u64::from(refusal.number())
}

// A fault as a number: where it is, and which. C is handed one number, and the plain Rust program makes the same of a fault.
fn fault_number(fault: ProgramFault) -> u64 {
    let report = fault.report();
    (report.offset as u64)
        .wrapping_mul(100)
        .wrapping_add(refusal_number(report.refusal))
}

// A question as a number.
fn question_number(question: Question) -> u64 {
    let Question {
        goal: Goal { need, avoid },
        limit,
        budget,
    } = question;
    (need ^ avoid).wrapping_add(u64::from(limit) + u64::from(budget))
}

// The questions from `at` on, added up, with the fault that ends them.
fn questions(text: &[u8], at: usize) -> u64 {
    let mut sum: u64 = 0;
    let mut next = at;
    // a question begins where the one before it ends
    loop {
        match next_question(text, next) {
            Ok(Some(asked)) => {
                sum = sum.wrapping_add(question_number(asked.question));
                next = asked.next;
            }
            Ok(None) => return sum,
            Err(fault) => return sum.wrapping_add(fault_number(fault)),
        }
    }
}

// Reads a problem, goes through the questions behind it, and writes the problem; what stops this is a number, since C is handed one.
fn there_and_back(text: &[u8], out: &mut [u8]) -> Result<u64, u64> {
    let mut rows = Rows::new();
    let mut actions = Filled::over(&mut rows.actions, 64);
    let mut effects = Filled::over(&mut rows.effects, 512);
    let taken = read_input(text, &mut actions, &mut effects).map_err(fault_number)?;
    let problem = taken
        .problem(actions.entries(), effects.entries())
        .map_err(refusal_number)?;
    let sum = questions(text, taken.bytes);
    let bytes = write_problem(&problem, out).map_err(refusal_number)?;
    Ok(sum.wrapping_add(bytes as u64))
}

// Reads a problem, goes through the questions behind it, and writes the problem.
#[unsafe(no_mangle)]
pub extern "C" fn bridge_text(text: &[u8], out: &mut [u8]) -> u64 {
    there_and_back(text, out).unwrap_or_else(|number| number)
}
