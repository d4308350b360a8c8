ghost use Rattle.std.specs.Prelude.{◌≡◌, ℕ, ◌<◌};
ghost use Rattle.sets.specs.Sets.{Has, Marks};
ghost use Rattle.graph.specs.Levels.{Excludes};
ghost use Rattle.graph.specs.Turning.{row};
ghost use Rattle.graph.specs.Tables.{NodesOf, Stopped, Beaten, nodes_at, level_of};
ghost use Rattle.graph.specs.Growths.{task_in, GrowthOf};

use crate::clash::{clashes_of, touching};
use crate::layer::Layer;
use crate::masks::{column, has, union_of};
use crate::support::supports_of;
use crate::table::{Links, Nodes};
use sets::{members_of, single, without};
use std::array;

// How a level grows into the next: the level as it is read, what each action supports there, what clashes with each, and the facts of
// the next level.
// What the methods ask by GrowthOf is no ghost field: as it stands it has more than one proof, and truncated (tried) it did not
// prove what they promise, which names supporters.
#[derive(Drop)]
pub(crate) struct Growth<'a> {
    links: &'a Links<'a>,
    layer: Layer<'a>,
    supports: [u64; 64],
    clashes: [Nodes; 64],
    pub(crate) facts: u64,
}

// What `start` and each of the rows of a set have in common.
fn common_of(rows: &[Nodes; 64], of: u64, start: Nodes) -> Nodes
    ensures actions { Marks result.actions (λ j. Has start.actions j × ((k : ℕ) → Has of k → Has (nodes_at rows.now k).actions j)) }
    ensures noops { Marks result.noops (λ g. Has start.noops g × ((k : ℕ) → Has of k → Has (nodes_at rows.now k).noops g)) }
{
    let mut common = start;
    for k in members_of(of) {
        let nodes = rows[k as usize];
        common.actions &= nodes.actions;
        common.noops &= nodes.noops;
    }
    common
}

impl<'a> Growth<'a> {
    // What comes of a level. The facts of the next one are what the actions support, and what the no-ops do.
    pub(crate) fn new(links: &'a Links<'a>, layer: Layer<'a>) -> Growth<'a>
        ensures layer { result.layer ≡ layer.entry }
        ensures problem { result.links.now.problem.now ≡ links.now.problem.now }
        ensures growth { GrowthOf (task_in result) result }
    {
        let supports = supports_of(links.problem, &layer);
        let clashes = clashes_of(links, &layer);
        let facts = layer.facts | union_of(&supports, u64::MAX);
        Growth {
            links,
            layer,
            supports,
            clashes,
            facts,
        }
    }

    // What clashes with the no-op of an atom: everything, if the atom is no fact.
    fn stopped_by_noop(&self, atom: usize) -> Nodes
        requires { atom < 64 }
        ensures { NodesOf (task_in self.now) (Stopped (task_in self.now) (level_of self.now.layer) atom) result }
    {
        if !has(self.layer.facts, atom as u32) {
            return Nodes {
                actions: u64::MAX,
                noops: u64::MAX,
            };
        }
        let one = single(atom as u32);
        let barred = self.layer.exclusive[atom];
        Nodes {
            actions: touching(self.links, one, 0, barred),
            noops: without(barred, one),
        }
    }

    // What clashes with each supporter of an atom.
    fn beaten(&self, atom: usize) -> Nodes
        requires { atom < 64 }
        ensures { GrowthOf (task_in self.now) self.now
            → NodesOf (task_in self.now) (Beaten (task_in self.now) (level_of self.now.layer) atom) result }
    {
        let stopped = self.stopped_by_noop(atom);
        let supporters = column(&self.supports, atom);
        common_of(&self.clashes, supporters, stopped)
    }

    // The facts of the next level that are exclusive there with an atom: those that nothing supports but what is beaten.
    fn exclusive_with(&self, atom: usize) -> u64
        requires { atom < 64 }
        ensures { GrowthOf (task_in self.now) self.now → Marks result (Excludes (task_in self.now) (level_of self.now.layer) atom) }
    {
        if !has(self.facts, atom as u32) {
            return 0;
        }
        let nodes = self.beaten(atom);
        let unbeaten = union_of(&self.supports, without(u64::MAX, nodes.actions))
            | without(self.layer.facts, nodes.noops);
        without(self.facts, unbeaten)
    }

    // For each atom the facts of the next level that are exclusive there with it.
    pub(crate) fn exclusions(&self) -> [u64; 64]
        ensures { GrowthOf (task_in self.now) self.now
            → (f : ℕ) → f < 64 → Marks (row result f) (Excludes (task_in self.now) (level_of self.now.layer) f) }
    {
        array::from_fn(|atom| self.exclusive_with(atom))
    }
}
