ghost use Rattle.std.specs.Prelude.{◌≡◌, IfOk};
ghost use Rattle.problem.specs.Examples.{valuation_rows, valuation_effects};

use crate::source::Source;
use problem::{ActionRow, EffectRow};
use std::alloc::{AllocError, Global};

// The model valuation: its atoms, hands and first state.
pub const MODEL_ATOMS: u8 = 5;

pub const MODEL_HANDS: u8 = 2;

pub const MODEL_FIRST: u64 = 0b00101;

// Its actions: action 0 checks, action 1 posts, and action 2 sweeps away what the check needs.
pub const MODEL_ACTIONS: [ActionRow; 3] = [
    ActionRow {
        precondition: 0b00001,
        first_effect: 0,
    },
    ActionRow {
        precondition: 0b00010,
        first_effect: 1,
    },
    ActionRow {
        precondition: 0b00001,
        first_effect: 2,
    },
];

// Their effects.
pub const MODEL_EFFECTS: [EffectRow; 4] = [
    EffectRow {
        condition: 0,
        add: 0b00010,
        delete: 0,
    },
    EffectRow {
        condition: 0,
        add: 0b10000,
        delete: 0,
    },
    EffectRow {
        condition: 0,
        add: 0,
        delete: 0b00001,
    },
    EffectRow {
        condition: 0b00100,
        add: 0b01000,
        delete: 0b00100,
    },
];

// The model valuation, with lists of its own.
pub fn model_valuation(heap: Global) -> Result<Source, AllocError>
    ensures { IfOk result (λ s. (s.atoms ≡ 5) × (s.hands ≡ 2) × (s.first ≡ 5)
        × (s.actions.items ≡ valuation_rows) × (s.effects.items ≡ valuation_effects)) }
{
    Ok(Source {
        atoms: MODEL_ATOMS,
        hands: MODEL_HANDS,
        first: MODEL_FIRST,
        actions: MODEL_ACTIONS.to_vec(heap)?,
        effects: MODEL_EFFECTS.to_vec(heap)?,
    })
}

#[cfg(test)]
mod tests {
    use super::*;

    // The contract says nothing of a call that fails for want of memory: here one succeeds.
    #[test]
    fn the_model_valuation_is_made(rt: HostRuntime) {
        let made = model_valuation(rt.alloc());
        assert!(rt; made.is_ok());
    }
}
