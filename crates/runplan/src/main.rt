#![tactic(auto)]
// Reads a problem and questions from standard input, and answers each question in turn.
use claim::{Outcome, Report};
use outlook::GraphOutlook;
use plain::step_line;
use planner::{Teller, plan};
use problem::{ActionRow, EffectRow, Problem, Question, Refusal};
use sets::Filled;
use std::io;
use std::io::Read;
use store::{Keeper, KeptRow};
use text::{ProgramFault, next_question, read_input};

// The most bytes of input.
const MOST: usize = 32_768;

// The rows of the keeper.
const ROWS: usize = 2_000;

// Why no more is answered.
#[derive(Drop)]
enum Stop {
    // the input has no problem, or no question where one should be
    Fault(ProgramFault),
    // what was read is no problem
    Refused(Refusal),
    // nothing can be printed
    Unprinted(io::Error),
}

impl From<ProgramFault> for Stop {
    fn from(fault: ProgramFault) -> Stop {
        Stop::Fault(fault)
    }
}

impl From<Refusal> for Stop {
    fn from(refusal: Refusal) -> Stop {
        Stop::Refused(refusal)
    }
}

impl From<io::Error> for Stop {
    fn from(error: io::Error) -> Stop {
        Stop::Unprinted(error)
    }
}

// Prints why the input could not be taken.
fn print_fault(rt: &HostRuntime, fault: ProgramFault) -> io::Result<()> {
    let report = fault.report();
    println!(rt; "bad {} {}", report.refusal.number(), report.offset)
}

// Prints a plan: how many steps it has, and each step.
fn print_plan(rt: &HostRuntime, steps: &[u64]) -> io::Result<()> {
    let count = steps.len();
    println!(rt; "plan {count}")?;
    for step in steps {
        rt.println(step_line(rt.alloc(), *step)?)?;
    }
    Ok(())
}

// Prints the answer to a question.
fn print_report(
    rt: &HostRuntime,
    question: Question,
    report: Report,
    list: &[u64],
) -> io::Result<()> {
    match report.outcome {
        Outcome::Plan => {
            let count = list.len().min(report.steps as usize);
            print_plan(rt, &list[0..count])
        }
        Outcome::Never => println!(rt; "never"),
        Outcome::NotWithin => println!(rt; "not-within {}", question.limit),
        Outcome::Spent => println!(rt; "spent {}", question.budget),
    }
}

// Prints why a call declined.
fn print_refusal(rt: &HostRuntime, refusal: Refusal) -> io::Result<()> {
    println!(rt; "refused {}", refusal.number())
}

// Plans for a question, and prints the answer.
fn answer(
    rt: &HostRuntime,
    outlook: &GraphOutlook,
    keeper: &mut Keeper<Teller>,
    question: Question,
) -> io::Result<()> {
    let mut list = [0; 32];
    match plan(outlook, keeper, question, &mut list) {
        Ok(report) => print_report(rt, question, report, &list),
        Err(refusal) => print_refusal(rt, refusal),
    }
}

// Answers the questions from `at` on, up to the end of the text or the first fault.
fn answer_all(rt: &HostRuntime, problem: &Problem, text: &[u8], at: usize) -> Result<(), Stop> {
    let outlook = GraphOutlook::new(*problem);
    let mut rows = [KeptRow::default(); ROWS];
    let mut keeper = Keeper::over(&mut rows);
    // a cursor: a question begins where the one before it ends
    let mut next = at;
    while let Some(asked) = next_question(text, next)? {
        answer(rt, &outlook, &mut keeper, asked.question)?;
        next = asked.next;
    }
    Ok(())
}

// Reads the problem, and answers what is asked of it.
fn run(rt: &HostRuntime, text: &[u8]) -> Result<(), Stop> {
    let mut actions = [ActionRow::default(); 64];
    let mut effects = [EffectRow::default(); 512];
    let mut action_list = Filled::over(&mut actions, 64);
    let mut effect_list = Filled::over(&mut effects, 512);
    let taken = read_input(text, &mut action_list, &mut effect_list)?;
    let problem = taken.problem(action_list.entries(), effect_list.entries())?;
    answer_all(rt, &problem, text, taken.bytes)
}

fn main(rt: HostRuntime) -> io::Result<()> {
    let mut text = Vec::new(rt.alloc());
    rt.stdin().take(MOST as u64 + 1).read_to_end(&mut text)?;
    run(&rt, &text).or_else(|stop| match stop {
        Stop::Fault(fault) => print_fault(&rt, fault),
        Stop::Refused(refusal) => print_refusal(&rt, refusal),
        Stop::Unprinted(error) => Err(error),
    })
}
