// What was checked, and what of it was wrong.
#[derive(Clone, Copy, Default)]
pub struct Tally {
    pub problems: u64,
    pub goals: u64,
    pub due: u64,
    // of these, with more than one action, and with an atom to avoid that the goal does not avoid
    pub joint: u64,
    pub wary: u64,
    pub unsound: u64,
    pub incomplete: u64,
    pub twice: u64,
    pub outside: u64,
    pub unfinished: u64,
}
