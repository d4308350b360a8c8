ghost use Rattle.std.specs.Prelude.{◌≡◌, ℕ, ◌<◌, ◌≤◌, ◌∷◌, ◌++◌, length, drop};
ghost use Rattle.planner.specs.Frames.{way};

use crate::frame::Frame;

// Writes a plan: the step, and then the steps of the frames, from the lowest up to the goal.
pub(crate) fn write_plan(frames: &[Frame], step: u64, list: &mut [u64])
    requires some { 0 < length frames.now }
    requires room { length frames.now ≤ length list.old }
    ensures { list.new ≡ (step ∷ way (length frames.now) frames.now) ++ drop (length frames.now) list.old }
{
    list[0] = step;
    // `iter_mut` was tried: once its borrow is over, a proof knows the length of the list and none of its entries
    for (i, frame) in frames[1..].iter().rev().enumerate() {
        list[i + 1] = frame.step;
    }
}
