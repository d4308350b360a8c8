use crate::turns::Ask;
use claim::{Outcome, Report};
use problem::{Goal, Problem};

// What stands in a list before a call: no step of a problem is this set.
pub const MARK: u64 = u64::MAX;

// What the outlook and the store say of a question: whether no run of any length reaches its goal, and how many of its levels are
// not ruled out.
#[derive(Clone, Copy)]
pub struct Standing {
    pub shut: bool,
    pub levels: usize,
}

// What is asked, what stood before and the report go together here alone, for two calls.
// Whether the plain search agrees with the outcome of a report and its steps, and the outlook with "never" or its absence.
pub fn outcome_right(ask: Ask, before: Standing, report: Report) -> bool {
    match report.outcome {
        Outcome::Plan => !before.shut && ask.fewest == Some(report.steps as usize),
        Outcome::NotWithin => !before.shut && ask.aim().is_beyond(ask.question.limit as usize),
        Outcome::Never => before.shut && ask.fewest.is_none(),
        Outcome::Spent => !before.shut,
    }
}

// Whether the numbers of a report fit each other and its outcome.
pub fn numbers_right(ask: Ask, before: Standing, report: Report) -> bool {
    let Report {
        outcome,
        steps,
        opened,
        kept,
        passed_over,
        left_open,
    } = report;
    let sum = u64::from(kept) + u64::from(passed_over) + u64::from(left_open);
    let limit = u32::from(ask.question.limit);
    let budget = ask.question.budget;
    let fit = match outcome {
        Outcome::Plan => left_open == steps && steps <= limit,
        Outcome::NotWithin => steps == 0 && left_open == 0 && opened as usize >= before.levels,
        Outcome::Never => steps == 0 && opened == 0,
        Outcome::Spent => steps == 0 && left_open <= limit && opened == budget && before.levels > 0,
    };
    fit && u64::from(opened) == sum && opened <= budget && (before.levels > 0 || opened == 0)
}

// Whether every level is ruled out after "not within", unless the store passed something over.
pub fn remembered(report: Report, after: Standing) -> bool {
    match report.outcome {
        Outcome::NotWithin => report.passed_over > 0 || after.levels == 0,
        _ => true,
    }
}

// The state after the steps, taken from the first state on, if each of them is firm where it is taken.
fn end_of(problem: &Problem, steps: &[u64]) -> Option<u64> {
    steps.iter().try_fold(problem.first, |state, step| {
        problem.try_step(state, *step).ok().flatten()
    })
}

// Whether the steps are a firm run that reaches the goal.
fn reaches(problem: &Problem, goal: Goal, steps: &[u64]) -> bool {
    end_of(problem, steps).is_some_and(|state| goal.met_by(state))
}

// Whether a part of a list is as it was marked.
pub fn untouched(list: &[u64]) -> bool {
    list.iter().all(|entry| *entry == MARK)
}

// Whether the list has the plan of a report, if there is one, and nothing else.
pub fn list_right(problem: &Problem, goal: Goal, report: Report, list: &[u64]) -> bool {
    let Outcome::Plan = report.outcome else {
        return untouched(list);
    };
    let steps = report.steps as usize;
    steps <= list.len() && reaches(problem, goal, &list[0..steps]) && untouched(&list[steps..])
}
