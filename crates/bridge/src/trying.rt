use problem::{ActionRow, EffectRow, Problem};
use std::array::from_fn;

// Sixteen actions leave one another alone: each has four atoms of its own, and two effects.
fn effects_of(i: usize) -> [EffectRow; 2] {
    let own = 4 * (i % 16) as u32;
    [
        EffectRow {
            condition: 0,
            add: 2 << own,
            delete: 0,
        },
        EffectRow {
            condition: 1 << own,
            add: 4 << own,
            delete: 8 << own,
        },
    ]
}

// Tries so many firm steps of `width` actions, and adds up where they end.
fn try_all(problem: &Problem, width: u32, rounds: u32) -> u64 {
    let state = 0x9999_9999_9999_9999;
    let mut sum: u64 = 0;
    // the number says which step is tried, and the sum goes into the next state: a fold would be no shorter
    for i in 0..rounds {
        let step = (0xf >> (4 - width % 5)) << (i % 12);
        sum = sum.wrapping_add(match problem.try_step(state ^ sum & 2, step) {
            Ok(Some(end)) => end,
            Ok(None) => 1,
            Err(_) => 3,
        });
    }
    sum
}

// Tries so many firm steps of `width` actions of a problem with four hands.
#[unsafe(no_mangle)]
pub extern "C" fn bridge_try(width: u32, rounds: u32) -> u64 {
    let actions: [ActionRow; 16] = from_fn(|i| ActionRow {
        precondition: 1 << (4 * i as u32),
        first_effect: 2 * i,
    });
    let effects: [[EffectRow; 2]; 16] = from_fn(effects_of);
    Problem::new(64, 4, 0, &actions, effects.as_flattened()).map_or(0, |problem| {
        try_all(&problem, width, rounds)
    })
}
