use problem::Problem;

mod answers;

// The outlook that bars nothing and has no closing level.
#[derive(Drop)]
pub struct OpenOutlook<'a> {
    problem: Problem<'a>,
}
