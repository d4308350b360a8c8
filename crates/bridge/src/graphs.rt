use crate::random::{scatter, scattered_behind};
use crate::reading::Rows;
use graph::Graph;
use problem::{ActionRow, EffectRow, Problem};
use sets::without;
use std::array::from_fn;

// The set of one atom that a number stands for.
fn one_of(x: u64) -> u64 {
    1 << ((x >> 8) % 64)
}

// One effect of a scattered problem: the first of an action has no condition.
fn scattered_effect(x: u64, first: bool) -> EffectRow {
    let condition = if first { 0 } else { one_of(x) };
    let add = one_of(scatter(x));
    let delete = without(one_of(scatter(x ^ 1)), add);
    EffectRow {
        condition,
        add,
        delete,
    }
}

// The rows of a scattered problem: a number of its own for each action, and behind it one for each of the action's effects.
fn scattered(seed: u64) -> Rows {
    let mut numbers = [0; 576];
    for (place, x) in numbers.iter_mut().zip(scattered_behind(seed)) {
        *place = x;
    }
    Rows {
        actions: from_fn(|i| ActionRow {
            precondition: one_of(numbers[9 * i]),
            first_effect: 8 * i,
        }),
        effects: from_fn(|i| scattered_effect(numbers[i / 8 * 9 + 1 + i % 8], i % 8 == 0)),
    }
}

// The graph's facts and some of its exclusions, added up.
fn added_up(graph: &Graph) -> u64 {
    (0..33u8).fold(0, |sum: u64, n| {
        sum.wrapping_add(graph.facts_at(n).unwrap_or(0))
            .wrapping_add(graph.exclusive_with(n, 2 * n % 64).unwrap_or(0))
    })
}

// Builds the planning graph of a scattered problem with 64 atoms and 64 actions of 8 effects.
fn built(seed: u64) -> u64 {
    let rows = scattered(seed);
    let first = scatter(seed ^ 5) & scatter(seed ^ 6) & scatter(seed ^ 7);
    Problem::new(64, 4, first, &rows.actions, &rows.effects).map_or(0, |problem| {
        added_up(&Graph::build(&problem))
    })
}

// Builds so many planning graphs of scattered problems.
#[unsafe(no_mangle)]
pub extern "C" fn bridge_graph(seed: u64, rounds: u32) -> u64 {
    (0..u64::from(rounds)).fold(
        0,
        |sum: u64, i| sum.wrapping_add(built(seed.wrapping_add(i))),
    )
}
