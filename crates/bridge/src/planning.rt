use crate::reading::on_first_question;
use claim::Report;
use outlook::GraphOutlook;
use planner::{Teller, plan};
use problem::{Problem, Question};
use store::{Keeper, KeptRow};

// The rows of the keeper.
const ROWS: usize = 2_000;

// What plan answered: the outcome by its place among the outcomes, or 4 where there was nothing to plan.
#[derive(Clone, Copy)]
#[repr(C)]
pub struct Planned {
    // a number and no enum, since C reads it
    pub outcome: u32,
    pub steps: u32,
    pub opened: u32,
    pub kept: u32,
    pub passed_over: u32,
    pub left_open: u32,
}

const UNPLANNED: Planned = Planned {
    outcome: 4,
    steps: 0,
    opened: 0,
    kept: 0,
    passed_over: 0,
    left_open: 0,
};

impl From<Report> for Planned {
    fn from(report: Report) -> Planned {
        let Report {
            outcome,
            steps,
            opened,
            kept,
            passed_over,
            left_open,
        } = report;
        Planned {
            outcome: outcome as u32,
            steps,
            opened,
            kept,
            passed_over,
            left_open,
        }
    }
}

// Builds the planning graph, and plans with a new keeper; nothing, where plan declines.
fn answer(problem: &Problem, question: Question, list: &mut [u64]) -> Option<Planned> {
    let outlook = GraphOutlook::new(*problem);
    let mut rows = [KeptRow::default(); ROWS];
    let mut keeper: Keeper<Teller> = Keeper::over(&mut rows);
    plan(&outlook, &mut keeper, question, list)
        .ok()
        .map(Planned::from)
}

// Reads a problem and a question, and plans.
#[unsafe(no_mangle)]
pub extern "C" fn bridge_plan(text: &[u8], list: &mut [u64]) -> Planned {
    on_first_question(text, |problem, question| answer(problem, question, list))
        .flatten()
        .unwrap_or(UNPLANNED)
}
