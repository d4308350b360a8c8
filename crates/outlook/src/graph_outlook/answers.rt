ghost use Rattle.std.specs.Prelude.{◌≡◌};
ghost use Rattle.problem.specs.Problems.{task_of};
ghost use Rattle.outlook.specs.GraphViews.{graph_task, graph_view, OfGraph};
ghost use Rattle.outlook.specs.GraphLaws.{graph_fits, graph_lawful};

use crate::graph_outlook::GraphOutlook;
use crate::outlook::Outlook;
use graph::Graph;
use problem::{Problem, Refusal};

impl<'a> GraphOutlook<'a> {
    // The outlook of a problem's planning graph.
    pub fn new(problem: Problem<'a>) -> GraphOutlook<'a>
        ensures task { graph_task result ≡ task_of problem.entry }
        ensures view { OfGraph (task_of problem.entry) (graph_view result) }
    {
        let graph = Graph::build(&problem);
        let closing = graph.closing();
        GraphOutlook {
            problem,
            graph,
            closing,
        }
    }
}

impl<'a> Outlook for GraphOutlook<'a> {
    ghost task = { graph_task };

    ghost fits = { graph_fits };

    ghost view = { graph_view };

    ghost lawful = { graph_lawful };

    fn problem(&self) -> &Problem<'_> {
        &self.problem
    }

    fn bars(&self, level: u8, a: u8, b: u8) -> Result<bool, Refusal> {
        self.graph.bars(level, a, b)
    }

    fn barred_with(&self, level: u8, atom: u8) -> Result<u64, Refusal> {
        self.graph.barred_with(level, atom)
    }

    fn closing(&self) -> Option<u8> {
        self.closing
    }
}
