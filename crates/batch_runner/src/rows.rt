//! The states of a batch, and the rows where its tasks begin.

ghost use Rattle.std.specs.Prelude.{◌≡◌, ◌+◌, ◌<◌, ◌≤◌, ◌^◌, length, map, IfOk};
ghost use Rattle.boot_program.specs.Batch.Limits.{most_batch_tasks};
ghost use Rattle.boot_program.specs.Turns.{turn_length};
ghost use Rattle.cairo_model.specs.Machine.FieldMemories.{cell_at};
ghost use Rattle.cairo_model.specs.Segments.{program_segment};
ghost use Rattle.cairo_model.specs.Views.Machine.{field_registers};
ghost use Rattle.batch_runner.specs.Certificates.{entry_rows};
ghost use Rattle.batch_runner.specs.Layout.{more_turns as turns_after, size as size_of};
ghost use Rattle.batch_runner.specs.Working.Placing.{marks_of_all, rows_of_all, task_rows_of};
ghost use Rattle.batch_runner.specs.Working.Stepping.{IsRunOver};

use crate::place::{more_turns, size_at};
use crate::placed::PlacedTask;
use cairo_model::segments::PROGRAM;
use cairo_model::{Cells, FieldState, TaskMark};
use cairo_step::step;
use std::alloc::{AllocError, Global};

/// The steps from the entry to the loop over tasks.
const ENTRY_STEPS: u32 = 4;

/// The steps up to the loop over hash instances.
const PROLOGUE_STEPS: u32 = 30;

/// The steps of a turn of that loop.
const BLOCK_STEPS: u32 = 29;

/// The steps from that loop to a task's first state.
const CALL_STEPS: u32 = 23 + 1;

/// The steps from a task's return to the next turn.
const RETURN_STEPS: u32 = 11 + 1;

/// The step from the loop over tasks to the end.
const EXIT_STEPS: u32 = 1;

/// A mark for each task.
#[tactic(auto, unfolding(crate::specs::Working::Placing::marks_of_all))]
pub(crate) fn task_marks(alloc: Global, tasks: &[PlacedTask]) -> Result<Vec<TaskMark>, AllocError>
    requires { length tasks.now ≤ most_batch_tasks }
    ensures { IfOk result (λ marks. marks.items ≡ marks_of_all entry_rows tasks.now) }
{
    let mut marks = Vec::with_capacity(alloc, tasks.len())?;
    let mut before = ENTRY_STEPS;
    for task in tasks {
        let row = before + steps_to_task(task);
        let bases = task.bases().to_vec(alloc)?;
        marks.push(TaskMark { row, bases })?;
        before += steps_with_task(task);
    }
    Ok(marks)
}

/// The steps of the whole run.
#[tactic(auto, unfolding(crate::specs::Working::Placing::rows_of_all))]
pub(crate) fn steps_of_all(tasks: &[PlacedTask]) -> u32
    requires { length tasks.now ≤ most_batch_tasks }
    ensures value { result ≡ entry_rows + (rows_of_all tasks.now + 1) }
    ensures few { result < 2 ^ 30 }
{
    let mut steps = ENTRY_STEPS;
    for task in tasks {
        steps += steps_with_task(task);
    }
    steps + EXIT_STEPS
}

// From the head of the loop over tasks to the head again.
fn steps_with_task(task: &PlacedTask) -> u32
    ensures value { result ≡ task_rows_of task.now }
    ensures few { result < 2 ^ 20 }
{
    steps_to_task(task) + task.task().pie().steps + RETURN_STEPS
}

fn steps_to_task(task: &PlacedTask) -> u32
    ensures value { result ≡ turn_length (turns_after (size_of task.now.task program_segment)) }
    ensures few { result < 2 ^ 19 }
{
    let turns = more_turns(size_at(task.task(), PROGRAM)) + 1;
    PROLOGUE_STEPS + BLOCK_STEPS * turns + CALL_STEPS
}

/// The states of so many steps over these cells, or as many of them as there are.
pub(crate) fn states_over(
    alloc: Global,
    cells: &Cells,
    start: FieldState,
    steps: u32,
) -> Result<Vec<FieldState>, AllocError>
    requires { steps < 2 ^ 30 }
    ensures { IfOk result (λ states. IsRunOver (cell_at cells.now) steps (field_registers start) (map field_registers states.items)) }
{
    let mut states = Vec::with_capacity(alloc, steps as usize + 1)?;
    states.push(start)?;
    let mut state = start;
    for row in 0..steps {
        match step(cells, state) {
            Ok(next) => {
                states.push(next)?;
                state = next;
            }
            Err(_fault) => return Ok(states),
        }
    }
    Ok(states)
}
