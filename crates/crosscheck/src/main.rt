#![tactic(auto)]
// What the planner answers, against the plain search: the model valuation, a binary count and problems drawn by chance, under both
// outlooks, on a keeper with many rows, a keeper with few rows and a bare store.
mod agreeing;
mod checking;
mod drawing;
mod models;
mod taking;
mod tally;
mod turns;

use agreeing::disagreements;
use chance::{Chance, Sizes, Source, count, draw_problem, model_valuation};
use claim::Report;
use drawing::Drawing;
use models::binary_count;
use outlook::{GraphOutlook, OpenOutlook, Outlook};
use problem::Problem;
use std::alloc::{AllocError, Global};
use std::io;
use store::{Bare, Keeper, KeptRow};
use taking::take_turns;
use tally::Tally;
use turns::Turn;

// The rows of the two keepers.
const MANY: usize = 2_000;

const FEW: usize = 3;

// How often turns are drawn for each of the two models.
const TIMES: u32 = 10;

// The problems that are drawn.
const PROBLEMS: u32 = 160;

// Their sizes.
const SIZES: Sizes = Sizes {
    atoms: (5, 8),
    hands: (1, 3),
    actions: (4, 7),
};

// The reports of the three stores, each of which takes the turns under the outlook.
fn reports_under<O: Outlook>(
    heap: Global,
    outlook: &O,
    turns: &[Turn],
    tally: &mut Tally,
) -> Result<Vec<Vec<Option<Report>>>, AllocError> {
    let mut many = [KeptRow::default(); MANY];
    let mut few = [KeptRow::default(); FEW];
    Ok(vec![in heap;
        take_turns(heap, outlook, &mut Keeper::over(&mut many), turns, tally)?,
        take_turns(heap, outlook, &mut Keeper::over(&mut few), turns, tally)?,
        take_turns(heap, outlook, &mut Bare::new(), turns, tally)?,
    ]?)
}

// Heap, chance and tally go along as they are, here and below: a drawing is lent them, and the tally goes on after it.
// Draws turns for a problem, takes them in every way, and compares.
fn check_problem(
    heap: Global,
    chance: &mut Chance,
    problem: &Problem,
    tally: &mut Tally,
) -> Result<(), AllocError> {
    let turns = Drawing {
        heap,
        // lent again: the value has one lifetime for all that it holds
        problem: &*problem,
        chance,
        tally,
    }
    .turns()?;
    let by_graph = reports_under(heap, &GraphOutlook::new(*problem), &turns, tally)?;
    let by_nothing = reports_under(heap, &OpenOutlook::new(*problem), &turns, tally)?;
    for (all, others, across) in [
        (&by_graph, &by_graph, false),
        (&by_nothing, &by_nothing, false),
        (&by_graph, &by_nothing, true),
    ] {
        let more = disagreements(all, others, across);
        tally.disagreements = tally.disagreements.saturating_add(more);
    }
    count(&mut tally.problems, true);
    Ok(())
}

fn check_source(
    heap: Global,
    chance: &mut Chance,
    source: &Source,
    tally: &mut Tally,
) -> Result<(), AllocError> {
    let Ok(problem) = source.problem() else {
        count(&mut tally.unfinished, true);
        return Ok(());
    };
    check_problem(heap, chance, &problem, tally)
}

fn check_models(heap: Global, chance: &mut Chance, tally: &mut Tally) -> Result<(), AllocError> {
    for _ in 0..TIMES {
        check_source(heap, chance, &model_valuation(heap)?, tally)?;
        check_source(heap, chance, &binary_count(heap)?, tally)?;
    }
    Ok(())
}

fn check_drawn(heap: Global, chance: &mut Chance, tally: &mut Tally) -> Result<(), AllocError> {
    for _ in 0..PROBLEMS {
        let source = draw_problem(heap, chance, SIZES)?;
        check_source(heap, chance, &source, tally)?;
    }
    Ok(())
}

fn print_tally(rt: &HostRuntime, tally: Tally) -> io::Result<()> {
    let Tally {
        problems,
        turns,
        plans,
        longest,
        not_within,
        never,
        spent,
        declined,
        ..
    } = tally;
    println!(rt; "{problems} problems, {turns} turns on six stores")?;
    println!(rt;
        "{plans} plans of up to {longest} steps, {not_within} not within, {never} never, {spent} spent, {declined} declined"
    )?;
    let Tally {
        reviews,
        covered,
        clears,
        let_go,
        ..
    } = tally;
    println!(rt;
        "{reviews} reviews, {covered} covered; {clears} clears, {let_go} covered before them"
    )?;
    let Tally {
        wrong_outcomes,
        wrong_lists,
        wrong_numbers,
        wrong_sums,
        wrong_refusals,
        ..
    } = tally;
    println!(rt;
        "wrong outcomes {wrong_outcomes}, lists {wrong_lists}, numbers {wrong_numbers}, sums {wrong_sums}, refusals {wrong_refusals}"
    )?;
    let Tally {
        wrong_covers,
        wrong_clears,
        disagreements,
        unfinished,
        ..
    } = tally;
    println!(rt;
        "wrong covers {wrong_covers}, clears {wrong_clears}; disagreements {disagreements}; unfinished {unfinished}"
    )
}

fn main(rt: HostRuntime) -> io::Result<()> {
    let mut chance = Chance::new(1997);
    let mut tally = Tally::default();
    check_models(rt.alloc(), &mut chance, &mut tally)?;
    check_drawn(rt.alloc(), &mut chance, &mut tally)?;
    print_tally(&rt, tally)
}
