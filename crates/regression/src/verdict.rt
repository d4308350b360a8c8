// What can be said of the states of a region: yes of each, no of each, or first ask whether a state has an atom.
#[derive(Clone, Copy, PartialEq)]
pub enum Verdict {
    Yes,
    No,
    Ask(u32),
}
