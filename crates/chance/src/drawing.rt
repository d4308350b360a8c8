use crate::numbers::Chance;
use crate::source::Source;
use problem::{ActionRow, EffectRow};
use sets::{all_below, lowest, single};
use std::alloc::{AllocError, Global};

// How many atoms, hands and actions a problem is to have, at least and at most. Pairs and no ranges: a range is not `Copy`.
#[derive(Clone, Copy)]
pub struct Sizes {
    pub atoms: (u8, u8),
    pub hands: (u8, u8),
    pub actions: (u8, u8),
}

// An effect, in a problem whose actions get into each other's way a little or much.
fn draw_effect(chance: &mut Chance, all: u64, rough: bool) -> EffectRow {
    if rough {
        EffectRow {
            condition: chance.few(all),
            add: chance.half(all),
            delete: chance.few(all),
        }
    } else {
        let some = chance.half(all);
        EffectRow {
            condition: chance.rare(all),
            add: lowest(some).map_or(0, |atom| single(atom)),
            delete: chance.rare(all) & chance.half(all),
        }
    }
}

// One more action, with one to three effects.
fn draw_action(chance: &mut Chance, rough: bool, source: &mut Source) -> Result<(), AllocError> {
    let all = source.all_atoms();
    let row = ActionRow {
        precondition: chance.rare(all),
        first_effect: source.effects.len(),
    };
    source.actions.push(row)?;
    for _ in 0..1 + chance.below(if rough { 3 } else { 2 }) {
        source.effects.push(draw_effect(chance, all, rough))?;
    }
    Ok(())
}

// Draws the numbers and rows of a problem of such sizes.
pub fn draw_problem(heap: Global, chance: &mut Chance, sizes: Sizes) -> Result<Source, AllocError> {
    let Sizes {
        atoms: (fewest_atoms, most_atoms),
        hands: (fewest_hands, most_hands),
        actions: (fewest_actions, most_actions),
    } = sizes;
    let atoms = chance.between(fewest_atoms..=most_atoms);
    let hands = chance.between(fewest_hands..=most_hands);
    let first = chance.half(all_below(usize::from(atoms)));
    let mut source = Source {
        atoms,
        hands,
        first,
        actions: Vec::new(heap),
        effects: Vec::new(heap),
    };
    let rough = chance.below(2) == 1;
    for _ in 0..chance.between(fewest_actions..=most_actions) {
        draw_action(chance, rough, &mut source)?;
    }
    Ok(source)
}
