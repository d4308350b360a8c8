use claim::{Outcome, Report};

// Whether two answers to one question go together. Where the first was given under the graph outlook and the second under the
// open one, the first may know more.
fn go_together(a: Report, b: Report, across: bool) -> bool {
    // a table of pairs: those that it does not name do not go together
    match (a.outcome, b.outcome) {
        (Outcome::Spent, _) | (_, Outcome::Spent) => true,
        (Outcome::Plan, Outcome::Plan) => a.steps == b.steps,
        (Outcome::NotWithin, Outcome::NotWithin) | (Outcome::Never, Outcome::Never) => true,
        (Outcome::Never, Outcome::NotWithin) => across,
        _ => false,
    }
}

// Whether two turns that may have given an answer go together.
fn agree(a: Option<Report>, b: Option<Report>, across: bool) -> bool {
    // a table of pairs as well: with `zip` both having none would be lost
    match (a, b) {
        (Some(a), Some(b)) => go_together(a, b, across),
        (None, None) => true,
        _ => false,
    }
}

// How many answers of one store do not go together with those of another.
fn differences(a: &[Option<Report>], b: &[Option<Report>], across: bool) -> u64 {
    a.iter()
        .zip(b)
        .filter(|(x, y)| !agree(**x, **y, across))
        .count() as u64
}

// How many answers of some stores do not go together with those of others.
pub fn disagreements(
    all: &[Vec<Option<Report>>],
    others: &[Vec<Option<Report>>],
    across: bool,
) -> u64 {
    all.iter().fold(0, |sum, a| {
        others.iter().fold(sum, |n: u64, b| n.saturating_add(differences(a, b, across)))
    })
}
