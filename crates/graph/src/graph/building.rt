ghost use Rattle.std.specs.Prelude.{◌≡◌, ℕ, ◌<◌, ◌≢◌};
ghost use Rattle.problem.specs.Problems.{task_of};
ghost use Rattle.graph.specs.Levels.{level, Same};
ghost use Rattle.graph.specs.Turning.{row};
ghost use Rattle.graph.specs.Graphs.{facts_at, row_at, rows_at, level_in, GraphOf};

use crate::graph::Graph;
use crate::growth::Growth;
use crate::layer::Layer;
use crate::moves::links_of;
use problem::Problem;

impl Graph {
    // A table in which level 0 stands: the atoms of the first state, and no exclusions.
    fn begin(problem: &Problem) -> Graph
        ensures atoms { result.atoms ≡ problem.now.atoms }
        ensures first { Same (level_in result 0) (level (task_of problem.now) 0) }
    {
        let mut facts = [0; 33];
        facts[0] = problem.first;
        Graph {
            atoms: problem.atoms,
            facts,
            exclusive: [0; 2112],
        }
    }

    // Level `n` as it is read.
    pub(crate) fn layer(&self, n: usize) -> Layer<'_>
        requires { n < 33 }
        ensures facts { result.facts ≡ facts_at self.now n }
        ensures rows { result.exclusive.now ≡ rows_at self.now n }
    {
        let (levels, _) = self.exclusive.as_chunks::<64>();
        Layer {
            facts: self.facts[n],
            exclusive: &levels[n],
        }
    }

    // Writes level `n`.
    fn put_level(&mut self, n: usize, facts: u64, rows: &[u64; 64])
        requires { n < 33 }
        ensures facts { facts_at self.new n ≡ facts }
        ensures rows { (a : ℕ) → a < 64 → row_at self.new n a ≡ row rows.now a }
        ensures other_facts { (k : ℕ) → k ≢ n → facts_at self.new k ≡ facts_at self.old k }
        ensures other_rows { (k a : ℕ) → k ≢ n → a < 64 → row_at self.new k a ≡ row_at self.old k a }
        ensures atoms { self.new.atoms ≡ self.old.atoms }
    {
        let first = 64 * n;
        self.facts[n] = facts;
        self.exclusive[first..first + 64].copy_from_slice(rows);
    }

    // The planning graph of a problem.
    pub fn build(problem: &Problem) -> Graph
        ensures { GraphOf (task_of problem.now) result }
    {
        let links = links_of(problem);
        let mut graph = Graph::begin(problem);
        // A loop over the numbers, since each level is read from the table into which the next is written.
        for n in 0..32 {
            let growth = Growth::new(&links, graph.layer(n));
            let facts = growth.facts;
            let rows = growth.exclusions();
            graph.put_level(n + 1, facts, &rows);
        }
        graph
    }
}
