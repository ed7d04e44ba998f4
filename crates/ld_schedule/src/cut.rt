//! Cuts: for each task a position, before which its steps are below the cut.

ghost use Rattle.std.specs.Prelude.{◌≡◌, length, nat_lt, slice_index};

use crate::step::Step;

/// The position of the task, or 0 if the cut has none.
pub fn cut_of(cut: &[u32], task: u32) -> u32
    ensures { result ≡ slice_index cut.now task }
{
    if task as usize >= cut.len() {
        return 0;
    }
    cut[task as usize]
}

/// Whether the step at the position is below the cut.
pub fn is_below(cut: &[u32], step: &Step, position: u32) -> bool
    ensures { result ≡ nat_lt position (slice_index cut.now step.now.task) }
{
    position < cut_of(cut, step.task)
}
