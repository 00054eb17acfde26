ghost use Rattle.std.specs.Prelude.{◌≡◌, ◌≤◌, ◌+◌, length, All};
ghost use Rattle.boot_program.specs.Batch.Limits.{most_batch_cells, most_batch_steps, most_batch_tasks, most_boot_words};
ghost use Rattle.boot_program.specs.Instructions.{HasInstructions, IsCallOfTasks, boot_listing};
ghost use Rattle.boot_program.specs.Laws.{BatchRuns, EachStretch, FrameHolds, HeadersAreTrue, OneTaskARow, ReturnTells, RowLaw, RowsLaw, SpanHasInstances, TurnRuns, TurnTells};
ghost use Rattle.boot_program.specs.Places.{entry_pc};
ghost use Rattle.boot_program.specs.Words.{boot_calls, boot_code, boot_end, boot_words};

use crate::limits::{MOST_BATCH_CELLS, MOST_BATCH_STEPS, MOST_BATCH_TASKS, MOST_BOOT_WORDS};
use crate::words::BOOT_ENTRY;

/// The limits of the code are those of the definitions; the words are few, the first at the entry, and the end after the last.
pub fn boot_constants()
    ensures tasks { MOST_BATCH_TASKS ≡ most_batch_tasks }
    ensures steps { MOST_BATCH_STEPS ≡ most_batch_steps }
    ensures cells { MOST_BATCH_CELLS ≡ most_batch_cells }
    ensures words { MOST_BOOT_WORDS ≡ most_boot_words }
    ensures few { length boot_words ≤ most_boot_words }
    ensures entry { BOOT_ENTRY ≡ entry_pc }
    ensures end { boot_end ≡ entry_pc + length boot_words }
{}

/// The words are those of the listing, statement by statement, from the entry to the end.
pub fn boot_is_listed()
    ensures listed { HasInstructions boot_code entry_pc boot_end boot_listing }
    ensures calls { All IsCallOfTasks boot_calls }
{}

/// Where a program has an instruction, the machine steps exactly where the memory holds what it asks, and to one state.
pub fn row_law()
    ensures { RowLaw }
{}

/// So many instructions one after the other are run through exactly where the memory holds what they ask, in one way.
pub fn rows_law()
    ensures { RowsLaw }
{}

/// A run through a stretch exists exactly where its cells hold; it is then the only one and ends as they tell.
pub fn stretch_laws()
    ensures { EachStretch }
{}

/// The cells of a task make the run from the head of the loop over tasks to the task's first state.
pub fn turn_runs()
    ensures { TurnRuns }
{}

/// A run from the head of the loop over tasks tells the cells of a task up to its call.
pub fn turn_tells()
    ensures { TurnTells }
{}

/// A run from a task's return tells the cells of the return.
pub fn return_tells()
    ensures { ReturnTells }
{}

/// A task's own cells in order hold what its stretches ask up to the call.
pub fn frame_holds()
    ensures { FrameHolds }
{}

/// The cells of the entry, of all tasks and of the exit make one run through the bootloader.
pub fn batch_runs()
    ensures { BatchRuns }
{}

/// A task's header says the program hash of the code that its frame names.
pub fn headers_are_true()
    ensures { HeadersAreTrue }
{}

/// The instances of a hash span stand one after the other.
pub fn span_has_instances()
    ensures { SpanHasInstances }
{}

/// In a batch in order a row is inside one task at most.
pub fn one_task_a_row()
    ensures { OneTaskARow }
{}
