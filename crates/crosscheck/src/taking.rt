use crate::checking::{
    MARK, Standing, list_right, numbers_right, outcome_right, remembered, untouched,
};
use crate::tally::Tally;
use crate::turns::{Aim, Ask, Turn};
use chance::count;
use claim::{Outcome, Report};
use outlook::{Outlook, holds_barred};
use planner::{Teller, clear, plan, review};
use problem::{Goal, Problem, Question, Refusal};
use std::alloc::{AllocError, Global};
use store::Store;

// The entries of a list, of which a question may use fewer.
pub const ENTRIES: usize = 33;

// What a store kept and passed over since its last clear, by the reports.
#[derive(Clone, Copy, Default, PartialEq)]
struct Sums {
    kept: u32,
    passed: u32,
}

fn is_covered<S: Store>(store: &S, level: u8, goal: Goal) -> bool {
    review(store, level, goal) == Ok(true)
}

fn is_barred<O: Outlook>(outlook: &O, level: u8, goal: Goal) -> bool {
    holds_barred(outlook, level, goal.need) == Ok(true)
}

fn standing_of<O: Outlook, S: Store>(outlook: &O, store: &S, question: Question) -> Standing {
    let goal = question.goal;
    let shut = outlook
        .closing()
        .is_some_and(|level| is_barred(outlook, level, goal));
    let levels = (1..=question.limit)
        .filter(|level| !is_barred(outlook, *level, goal) && !is_covered(store, *level, goal))
        .count();
    Standing { shut, levels }
}

// Counts the outcome of a report.
fn count_outcome(report: Report, tally: &mut Tally) {
    match report.outcome {
        Outcome::Plan => {
            count(&mut tally.plans, true);
            tally.longest = tally.longest.max(u64::from(report.steps));
        }
        Outcome::NotWithin => count(&mut tally.not_within, true),
        Outcome::Never => count(&mut tally.never, true),
        Outcome::Spent => count(&mut tally.spent, true),
    }
}

// Checks a report and what the list then has.
fn check_report(
    problem: &Problem,
    ask: Ask,
    before: Standing,
    report: Report,
    list: &[u64],
    tally: &mut Tally,
) {
    count_outcome(report, tally);
    count(&mut tally.wrong_refusals, ask.declined.is_some());
    count(
        &mut tally.wrong_outcomes,
        !outcome_right(ask, before, report),
    );
    count(
        &mut tally.wrong_numbers,
        !numbers_right(ask, before, report),
    );
    count(
        &mut tally.wrong_lists,
        !list_right(problem, ask.question.goal, report, list),
    );
}

// Checks a refusal, where this one may be expected.
fn check_refusal(refusal: Refusal, expected: Option<Refusal>, tally: &mut Tally) {
    count(&mut tally.declined, true);
    count(&mut tally.wrong_refusals, expected != Some(refusal));
}

// Outlook, store and tally go along as they are: of the calls below some take no outlook, and the store is read between.
// Asks what there is to ask, and checks the answer. The list is marked.
fn ask_with<O: Outlook, S: Store<Teller = Teller>>(
    outlook: &O,
    store: &mut S,
    ask: Ask,
    list: &mut [u64],
    tally: &mut Tally,
) -> Option<Report> {
    let question = ask.question;
    let before = standing_of(outlook, store, question);
    let room = ask.room.min(list.len());
    match plan(outlook, store, question, &mut list[0..room]) {
        Ok(report) => {
            check_report(outlook.problem(), ask, before, report, list, tally);
            let after = standing_of(outlook, store, question);
            count(&mut tally.wrong_covers, !remembered(report, after));
            Some(report)
        }
        Err(refusal) => {
            check_refusal(refusal, ask.declined, tally);
            count(&mut tally.wrong_lists, !untouched(list));
            None
        }
    }
}

fn take_plan<O: Outlook, S: Store<Teller = Teller>>(
    outlook: &O,
    store: &mut S,
    ask: Ask,
    tally: &mut Tally,
) -> Option<Report> {
    let mut list = [MARK; ENTRIES];
    ask_with(outlook, store, ask, &mut list, tally)
}

// Reviews a position: what is covered is out of reach.
fn take_review<S: Store>(
    store: &S,
    level: u8,
    aim: Aim,
    declined: Option<Refusal>,
    tally: &mut Tally,
) {
    match review(store, level, aim.goal) {
        Ok(covered) => {
            count(&mut tally.reviews, true);
            count(&mut tally.covered, covered);
            count(&mut tally.wrong_refusals, declined.is_some());
            count(
                &mut tally.wrong_covers,
                covered && !aim.is_beyond(level as usize),
            );
        }
        Err(refusal) => check_refusal(refusal, declined, tally),
    }
}

// How many of the goals that turns are about are covered, at the levels that they name.
fn covered_of<S: Store>(store: &S, turns: &[Turn]) -> u64 {
    turns
        .iter()
        .filter(|turn| match **turn {
            Turn::Plan(ask) => is_covered(store, ask.question.limit, ask.question.goal),
            Turn::Review(level, aim, _) => is_covered(store, level, aim.goal),
            Turn::Clear => false,
        })
        .count() as u64
}

// Clears a store: nothing of what the turns are about is covered then.
fn take_clear<S: Store>(store: &mut S, turns: &[Turn], tally: &mut Tally) {
    tally.let_go = tally.let_go.saturating_add(covered_of(store, turns));
    clear(store);
    count(&mut tally.clears, true);
    tally.wrong_clears = tally.wrong_clears.saturating_add(covered_of(store, turns));
}

impl Sums {
    // What the store counts itself; no From, since a store does not become its counts.
    fn of<S: Store>(store: &S) -> Sums {
        Sums {
            kept: store.kept(),
            passed: store.passed(),
        }
    }

    // The sums after a turn and the report that it may have given.
    fn after(self, turn: Turn, report: Option<Report>) -> Sums {
        match (turn, report) {
            (Turn::Clear, _) => Sums::default(),
            (_, Some(report)) => Sums {
                kept: self.kept.saturating_add(report.kept),
                passed: self.passed.saturating_add(report.passed_over),
            },
            (_, None) => self,
        }
    }
}

// Takes the turns on a store in its first hour, checks each, and answers the reports.
pub fn take_turns<O: Outlook, S: Store<Teller = Teller>>(
    heap: Global,
    outlook: &O,
    store: &mut S,
    turns: &[Turn],
    tally: &mut Tally,
) -> Result<Vec<Option<Report>>, AllocError> {
    let mut reports = Vec::new(heap);
    let mut sums = Sums::default();
    for turn in turns {
        count(&mut tally.turns, true);
        let report = match *turn {
            Turn::Plan(ask) => take_plan(outlook, store, ask, tally),
            Turn::Review(level, aim, declined) => {
                take_review(store, level, aim, declined, tally);
                None
            }
            Turn::Clear => {
                take_clear(store, turns, tally);
                None
            }
        };
        sums = sums.after(*turn, report);
        count(&mut tally.wrong_sums, Sums::of(store) != sums);
        reports.push(report)?;
    }
    Ok(reports)
}
