ghost use Rattle.std.specs.Prelude.{◌≡◌, ◌+◌, ◌-◌, ◌<◌, ◌≤◌, [], drop};
ghost use Rattle.problem.specs.Firm.{Task};
ghost use Rattle.store.specs.Positions.{target_of};
ghost use Rattle.planner.specs.Frames.{frame_at};
ghost use Rattle.planner.specs.Works.{held_of, Shape, Entered, Took};

use super::Path;
use crate::frame::Frame;
use crate::pruning::Pruning;
use outlook::Outlook;
use problem::Goal;
use regression::{Due, Found, Node, Part, begin_work, next_due};
use store::Position;

impl Path {
    // Nothing is open.
    pub(crate) fn new() -> Path
        ensures none { held_of result ≡ [] }
        ensures depth { result.depth ≡ 0 }
        ensures shape { (t : Task) → Shape t result }
    {
        // past the depth and the length the lists say nothing
        let goal = Goal::default();
        let frame = Frame {
            position: Position { level: 1, goal },
            step: 0,
            base: 0,
        };
        let node = Node {
            chosen: 0,
            candidates: 0,
            region: goal,
        };
        Path {
            frames: [frame; 32],
            depth: 0,
            nodes: [node; 4128],
            len: 0,
        }
    }

    // Opens a position that is due by a step: it becomes the lowest, and the work on it begins.
    pub(crate) fn open<O: Outlook>(&mut self, outlook: &O, position: Position, step: u64)
        requires shallow { self.old.depth < 32 }
        requires shape { Shape (O.task outlook.now) self.old }
        ensures entered { Entered (O.task outlook.now) self.old (target_of position) step self.new }
        ensures shape { Shape (O.task outlook.now) self.new }
    {
        let base = self.len;
        // there is room for the work on 32 positions
        let part = begin_work(outlook.problem(), position.goal, &mut self.nodes, base).unwrap();
        self.frames[self.depth] = Frame {
            position,
            step,
            base,
        };
        self.depth += 1;
        self.len = base + part.count;
    }

    // Takes the lowest position off the path, with the work left on it.
    pub(crate) fn close(&mut self)
        requires some { 0 < self.old.depth }
        requires deep { self.old.depth ≤ 32 }
        ensures rest { held_of self.new ≡ drop 1 (held_of self.old) }
        ensures depth { self.new.depth + 1 ≡ self.old.depth }
        ensures shape { (t : Task) → Shape t self.old → Shape t self.new }
    {
        self.len = self.lowest().base;
        self.depth -= 1;
    }

    // The lowest position.
    pub(crate) fn lowest(&self) -> Frame
        requires { (0 < self.now.depth) × (self.now.depth ≤ 32) }
        ensures { result ≡ frame_at self.now.frames (self.now.depth - 1) }
    {
        self.frames[self.depth - 1]
    }

    // Goes on with the work on the lowest position until a region is made due, or no work is left.
    pub(crate) fn take_due<O: Outlook>(&mut self, outlook: &O) -> Option<Due>
        requires some { 0 < self.old.depth }
        requires shape { Shape (O.task outlook.now) self.old }
        ensures took { Took (O.task outlook.now) (O.view outlook.now) (held_of self.old) result (held_of self.new) }
        ensures shape { Shape (O.task outlook.now) self.new }
        ensures depth { self.new.depth ≡ self.old.depth }
        ensures frames { self.new.frames ≡ self.old.frames }
    {
        let Frame { position, base, .. } = self.lowest();
        let part = Part {
            start: base,
            count: self.len - base,
        };
        let pruning = Pruning {
            outlook,
            level: position.level - 1,
        };
        match next_due(
            outlook.problem(),
            position.goal,
            &pruning,
            &mut self.nodes,
            part,
        ) {
            Found::Made(due, left) => {
                self.len = base + left;
                Some(due)
            }
            Found::Done => {
                self.len = base;
                None
            }
            // each position has room for all the nodes that its work can come to
            Found::NoRoom(_) => unreachable!(),
        }
    }
}
