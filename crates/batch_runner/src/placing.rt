ghost use Rattle.std.specs.Prelude.{◌≡◌, All, IfOk};
ghost use Rattle.batch_plan.specs.Parts.{sizes_of_all};
ghost use Rattle.batch_plan.specs.Plans.{bases_of_all};
ghost use Rattle.batch_runner.specs.Laws.{IsAccepted};
ghost use Rattle.batch_runner.specs.Working.Places.{place_of};
ghost use Rattle.batch_runner.specs.Working.Placing.{placed_from};
ghost use Rattle.batch_runner.specs.Working.Rooms.{HasRooms};

use crate::code::program_words;
use crate::place::{TaskPlace, next_place};
use crate::placed::PlacedTask;
use cairo_model::{Checked, Layout};
use std::alloc::{AllocError, Global};

/// Each task of a batch where the plan puts it.
pub(crate) fn placed_tasks<'a>(
    alloc: Global,
    tasks: &'a [Checked],
    layouts: &'a [Layout],
    first: TaskPlace,
) -> Result<Vec<PlacedTask<'a>>, AllocError>
    requires accepted { All IsAccepted tasks.now }
    requires rooms { HasRooms (place_of first) tasks.now }
    requires planned { layouts.now ≡ bases_of_all (place_of first) (sizes_of_all tasks.now) }
    ensures { IfOk result (λ placed. placed.items ≡ placed_from (place_of first) tasks.now) }
{
    let mut placed = Vec::with_capacity(alloc, tasks.len())?;
    let mut at = first;
    for i in 0..tasks.len() {
        let task = &tasks[i];
        let layout = &layouts[i];
        let next = next_place(task, &at);
        let code = program_words(alloc, task)?;
        placed.push(PlacedTask {
            task,
            at,
            next,
            bases: layout.bases.as_slice(),
            code,
        })?;
        at = next;
    }
    Ok(placed)
}
