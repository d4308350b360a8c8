// Rows of a problem as they lie in lent lists: plain, with no invariant of their own.

// An effect: where the whole condition holds, what is added and what is deleted.
#[derive(Clone, Copy, Default, PartialEq, Eq)]
pub struct EffectRow {
    pub condition: u64,
    pub add: u64,
    pub delete: u64,
}

// An action: its precondition, and the place of its first effect in the list of effects. Its effects go up to the first
// effect of the next action, or to the end. Callers lend one list for the effects of all actions, so no heap is asked for.
#[derive(Clone, Copy, Default, PartialEq, Eq)]
pub struct ActionRow {
    pub precondition: u64,
    pub first_effect: usize,
}
