use crate::rows::{CHANGE, ROW};
use problem::{Goal, Question};
use sets::Filled;
use std::io;
use text::{Asked, ProgramFault, Report, Taken, next_question, read_input};

// The number of a fault, its offset and its layer.
fn show_report(rt: &HostRuntime, report: Report) -> io::Result<()> {
    let Report {
        refusal,
        offset,
        layer,
    } = report;
    let number = refusal.number();
    println!(rt; "{number} at {offset}, {layer}")
}

// The numbers of a problem that was read.
pub fn show_taken(
    rt: &HostRuntime,
    taken: Taken,
    actions: usize,
    effects: usize,
) -> io::Result<()> {
    let Taken {
        atoms,
        hands,
        first,
        bytes,
    } = taken;
    println!(rt;
        "{bytes} bytes, {atoms} atoms, {hands} hands, first {first}, {actions} actions, {effects} effects"
    )
}

// Says what a reading gave, with so many rows in the lists.
pub fn show_outcome(
    rt: &HostRuntime,
    outcome: Result<Taken, Report>,
    actions: usize,
    effects: usize,
) -> io::Result<()> {
    match outcome {
        Ok(taken) => show_taken(rt, taken, actions, effects),
        Err(report) => show_report(rt, report),
    }
}

// Reads a text and says what is found.
pub fn show(rt: &HostRuntime, text: &[u8]) -> io::Result<()> {
    let mut action_rows = [ROW; 64];
    let mut effect_rows = [CHANGE; 512];
    let mut actions = Filled::over(&mut action_rows, 64);
    let mut effects = Filled::over(&mut effect_rows, 512);
    let outcome = read_input(text, &mut actions, &mut effects).map_err(ProgramFault::report);
    show_outcome(rt, outcome, actions.len(), effects.len())
}

fn show_asked(rt: &HostRuntime, asked: Asked) -> io::Result<()> {
    let Asked {
        question: Question {
            goal: Goal { need, avoid },
            limit,
            budget,
        },
        next,
    } = asked;
    println!(rt; "need {need}, avoid {avoid}, limit {limit}, budget {budget}, next at {next}")
}

// Reads the question at `at` and says what is found.
pub fn show_question(rt: &HostRuntime, text: &[u8], at: usize) -> io::Result<()> {
    match next_question(text, at) {
        Ok(Some(asked)) => show_asked(rt, asked),
        Ok(None) => println!(rt; "no question"),
        Err(fault) => show_report(rt, fault.report()),
    }
}
