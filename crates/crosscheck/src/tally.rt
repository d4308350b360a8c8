// What was done on all stores together, and what of it was wrong.
#[derive(Clone, Copy, Default)]
pub struct Tally {
    pub problems: u64,
    pub turns: u64,
    pub plans: u64,
    pub not_within: u64,
    pub never: u64,
    pub spent: u64,
    pub declined: u64,
    pub reviews: u64,
    pub covered: u64,
    pub clears: u64,
    // what was covered before a clear
    pub let_go: u64,
    pub longest: u64,
    // an outcome that the plain search denies
    pub wrong_outcomes: u64,
    // a list that does not have the plan, or has anything else
    pub wrong_lists: u64,
    // numbers of a report that do not fit each other, its outcome or the question
    pub wrong_numbers: u64,
    // counts of a store other than the sums of the reports since its last clear
    pub wrong_sums: u64,
    // a refusal that is missing, without cause, or another one
    pub wrong_refusals: u64,
    // a covered position that the plain search reaches, or a rejected one that is neither covered nor passed over
    pub wrong_covers: u64,
    // a position that a clear leaves covered
    pub wrong_clears: u64,
    // two answers to a question that do not go together
    pub disagreements: u64,
    // a problem that does not load, or a plain search that finds no answer
    pub unfinished: u64,
}
