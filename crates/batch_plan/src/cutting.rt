ghost use Rattle.std.specs.Prelude.{◌≡◌, ◌↔◌, All, IsTrue, []};
ghost use Rattle.batch_plan.specs.Cuts.{AreWithinBatch, IsLongestCut, IsPieShape};

use boot_program::limits::{MOST_BATCH_CELLS, MOST_BATCH_STEPS, MOST_BATCH_TASKS};
use cairo_model::Shape;

/// How many of the PIEs that wait make the next batch: the most that fit into one, from the first on. Takes no memory.
pub fn cut(waiting: &[Shape]) -> usize
    requires { All IsPieShape waiting.now }
    ensures longest { IsLongestCut waiting.now result }
    ensures none { (result ≡ 0) ↔ (waiting.now ≡ []) }
{
    let mut steps: u64 = 0;
    let mut cells: u64 = 0;
    for (index, shape) in waiting.iter().enumerate() {
        steps += u64::from(shape.steps);
        cells += u64::from(shape.size);
        if !are_within_batch(index + 1, steps, cells) {
            return index;
        }
    }
    waiting.len()
}

fn are_within_batch(tasks: usize, steps: u64, cells: u64) -> bool
    ensures { IsTrue result ↔ AreWithinBatch tasks steps cells }
{
    tasks <= MOST_BATCH_TASKS && steps <= MOST_BATCH_STEPS && cells <= MOST_BATCH_CELLS
}
