use chance::Source;
use problem::{ActionRow, EffectRow};
use sets::{all_below, single};
use std::alloc::{AllocError, Global};
use std::array::from_fn;

// A count in binary, for long plans: each action needs all lower atoms, takes them away and adds its own. All atoms take 31 steps.
pub fn binary_count(heap: Global) -> Result<Source, AllocError> {
    let actions: [ActionRow; 5] = from_fn(|k| ActionRow {
        precondition: all_below(k),
        first_effect: k,
    });
    let effects: [EffectRow; 5] = from_fn(|k| EffectRow {
        condition: 0,
        add: single(k as u32),
        delete: all_below(k),
    });
    Ok(Source {
        atoms: 5,
        hands: 1,
        first: 0,
        actions: actions.to_vec(heap)?,
        effects: effects.to_vec(heap)?,
    })
}
