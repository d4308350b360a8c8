#![tactic(auto)]
// What regression answers, against brute force: small problems drawn by chance, all states, all steps.
mod asked;
mod asking;
mod checking;
mod tally;

use asked::{Asked, Query};
use chance::{Chance, Sizes, count, draw_problem};
use sets::{inside, size};
use std::alloc::{AllocError, Global};
use std::io;
use tally::Tally;

// The sizes of the problems that are drawn.
const SIZES: Sizes = Sizes {
    atoms: (3, 5),
    hands: (1, 3),
    actions: (3, 4),
};

// The steps of four actions.
const STEPS: u64 = 16;

// Checks what is made due by a query.
fn check_goal(heap: Global, query: Query, tally: &mut Tally) -> Result<(), AllocError> {
    count(&mut tally.goals, true);
    let Some(dues) = query.all_due(heap)? else {
        count(&mut tally.unfinished, true);
        return Ok(());
    };
    tally.due = tally.due.saturating_add(dues.len() as u64);
    for due in &dues {
        count(&mut tally.joint, size(due.step) >= 2);
        count(&mut tally.wary, !inside(due.region.avoid, query.aim.avoid));
    }
    count(&mut tally.unsound, !query.all_sound(&dues));
    count(&mut tally.incomplete, !query.complete(STEPS, &dues));
    count(&mut tally.twice, !query.once(&dues));
    count(&mut tally.outside, !query.none_outside(&dues));
    Ok(())
}

// Draws a problem and goals for it, and checks each of them.
fn check_problem(heap: Global, chance: &mut Chance, tally: &mut Tally) -> Result<(), AllocError> {
    let source = draw_problem(heap, chance, SIZES)?;
    let Ok(problem) = source.problem() else {
        count(&mut tally.unfinished, true);
        return Ok(());
    };
    count(&mut tally.problems, true);
    let atoms = source.all_atoms();
    let states = atoms.saturating_add(1);
    for _ in 0..4u32 {
        let aim = chance.goal(atoms);
        let pair = chance.half(atoms);
        for asked in [Asked::All, Asked::Without(pair), Asked::Only(source.first)] {
            let query = Query {
                problem,
                states,
                aim,
                asked,
            };
            check_goal(heap, query, tally)?;
        }
    }
    Ok(())
}

fn main(rt: HostRuntime) -> io::Result<()> {
    let mut chance = Chance::new(2024);
    let mut tally = Tally::default();
    for _ in 0..600u32 {
        check_problem(rt.alloc(), &mut chance, &mut tally)?;
    }
    let Tally {
        problems,
        goals,
        due,
        joint,
        wary,
        unsound,
        incomplete,
        twice,
        outside,
        unfinished,
    } = tally;
    println!(rt;
        "{problems} problems, {goals} goals, {due} due, {joint} of several actions, {wary} with more to avoid"
    )?;
    println!(rt;
        "unsound {unsound}, incomplete {incomplete}, twice {twice}, outside {outside}, unfinished {unfinished}"
    )
}
