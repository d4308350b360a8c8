ghost use Rattle.std.specs.Prelude.{◌<◌, length, IfOk};
ghost use Rattle.plain.specs.Growth.{rows_of};
ghost use Rattle.plain.specs.Trees.{Linked, LeadTo};

use super::Tree;
use std::alloc::{AllocError, Global};

impl Tree {
    // The steps that lead from the first state to the entry `i`.
    pub(crate) fn steps_to(&self, heap: Global, i: usize) -> Result<Vec<u64>, AllocError>
        requires linked { Linked (rows_of self.now) }
        requires known { i < length (rows_of self.now) }
        ensures { IfOk result (λ v. LeadTo (rows_of self.now) i v.items) }
    {
        if i == 0 {
            return Ok(Vec::new(heap));
        }
        let last = self.reached[i];
        let mut steps = self.steps_to(heap, last.from)?;
        steps.push(last.step)?;
        Ok(steps)
    }
}
