ghost use Rattle.std.specs.Prelude.{◌≡◌};
ghost use Rattle.problem.specs.Problems.{task_of};
ghost use Rattle.graph.specs.Levels.{level, Closing};
ghost use Rattle.graph.specs.Graphs.{atoms_of, GraphOf};

use graph::Graph;
use problem::Problem;

mod answers;

// The outlook that bars what the planning graph of its problem bars.
#[derive(Drop)]
pub struct GraphOutlook<'a> {
    problem: Problem<'a>,
    graph: Graph,
    closing: Option<u8>,
    ghost sized: { atoms_of graph ≡ problem.atoms },
    ghost built: { ∥ GraphOf (task_of problem) graph ∥₁ },
    ghost closes: { ∥ Closing (level (task_of problem)) closing ∥₁ },
}
