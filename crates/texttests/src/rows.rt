use problem::{ActionRow, EffectRow};

// A row that no text of the cases holds. The lists that a text is read into are made over arrays of it where they are used: a struct of
// both arrays, made by a function or a constant, was tried, and is made in one place and copied to another at each text.
pub const ROW: ActionRow = ActionRow {
    precondition: 7,
    first_effect: 7,
};

pub const CHANGE: EffectRow = EffectRow {
    condition: 7,
    add: 7,
    delete: 7,
};

// How many rows of actions were not written; of effects below, where a function for both would be no shorter.
pub fn kept_actions(rows: &[ActionRow]) -> usize {
    rows.iter().filter(|row| **row == ROW).count()
}

// How many rows of effects were not written.
pub fn kept_effects(rows: &[EffectRow]) -> usize {
    rows.iter().filter(|e| **e == CHANGE).count()
}
