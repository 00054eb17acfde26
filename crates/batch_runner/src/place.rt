ghost use Rattle.std.specs.Prelude.{◌≡◌, ◌<◌, ◌≤◌, ◌^◌, drop, length, sum};
ghost use Rattle.cairo_model.specs.Pie.Records.{AreSizes};
ghost use Rattle.cairo_model.specs.Limits.{least_segments, most_cells, most_segments};
ghost use Rattle.batch_runner.specs.Laws.{IsAccepted};
ghost use Rattle.batch_runner.specs.Layout.{cells_before, hash_size as hash_cells_of, instances_before as instance_cells_of, more_turns as turns_after, next_place as place_after, output_size as output_cells_of, program_size as program_cells_of, size as size_of, turn_size as turn_cells_of, zeros_for as zeros_of};
ghost use Rattle.batch_runner.specs.Working.Places.{place_of};
ghost use Rattle.batch_runner.specs.Working.Rooms.{HasRoom};

use batch_plan::lengths::{
    CALL, HASH_TURN, HEADER, HEADER_COPY, INSTANCE, LOOP_STATE, TASK_FRAME, WORDS_PER_TURN, ZEROS,
};
use cairo_model::Checked;
use cairo_model::limits::LEAST_SEGMENTS;
use cairo_model::segments::{EXECUTION, HASH, OUTPUT, PROGRAM, RANGE};

/// The addresses at which a task begins in each part of a batch's memory.
#[derive(Clone, Copy, Debug)]
pub(crate) struct TaskPlace {
    pub frame: u32,
    pub output: u32,
    pub range: u32,
    pub hash: u32,
    pub program: u32,
}

/// Where the next task begins.
pub(crate) fn next_place(task: &Checked, at: &TaskPlace) -> TaskPlace
    requires accepted { IsAccepted task.now }
    requires room { HasRoom task.now (place_of at.now) }
    ensures { place_of result ≡ place_after task.now (place_of at.now) }
{
    TaskPlace {
        frame: at.frame + turn_size(task),
        output: at.output + output_size(task),
        range: at.range + size_at(task, RANGE),
        hash: at.hash + hash_size(task),
        program: at.program + program_size(task),
    }
}

/// The bootloader's cells for a task, and the task's segment 1.
fn turn_size(task: &Checked) -> u32
    requires { IsAccepted task.now }
    ensures { result ≡ turn_cells_of task.now }
{
    own_size(size_at(task, PROGRAM)) + size_at(task, EXECUTION)
}

/// The bootloader's cells for a program of so many words.
pub(crate) fn own_size(words: u32) -> u32
    requires { words ≤ most_cells }
    ensures value { result ≡ cells_before words }
    ensures few { result < 2 ^ 20 }
{
    (LOOP_STATE + CALL + TASK_FRAME + HEADER_COPY) as u32
        + HASH_TURN as u32 * (more_turns(words) + 1)
}

/// A header and the outputs after it.
pub(crate) fn output_size(task: &Checked) -> u32
    requires { IsAccepted task.now }
    ensures value { result ≡ output_cells_of task.now }
    ensures few { result < 2 ^ 20 }
{
    HEADER as u32 + size_at(task, OUTPUT)
}

fn hash_size(task: &Checked) -> u32
    requires { IsAccepted task.now }
    ensures { result ≡ hash_cells_of task.now }
{
    instances_size(size_at(task, PROGRAM)) + size_at(task, HASH)
}

/// The cells of the bootloader's hash instances for a program of so many words.
pub(crate) fn instances_size(words: u32) -> u32
    requires { words ≤ most_cells }
    ensures value { result ≡ instance_cells_of words }
    ensures few { result < 2 ^ 20 }
{
    INSTANCE as u32 * (more_turns(words) + 2)
}

fn program_size(task: &Checked) -> u32
    requires { IsAccepted task.now }
    ensures { result ≡ program_cells_of task.now }
{
    size_at(task, PROGRAM) + ZEROS as u32 + others_size(task.pie().sizes.as_slice())
}

/// The size of a segment that each PIE has.
pub(crate) fn size_at(task: &Checked, segment: u16) -> u32
    requires accepted { IsAccepted task.now }
    requires inside { segment < least_segments }
    ensures value { result ≡ size_of task.now segment }
    ensures few { result ≤ most_cells }
{
    task.pie().sizes[usize::from(segment)]
}

fn others_size(sizes: &[u32]) -> u32
    requires { AreSizes sizes.now }
    ensures value { result ≡ sum (drop least_segments sizes.now) }
    ensures few { result ≤ most_cells }
{
    total(&sizes[LEAST_SEGMENTS..])
}

fn total(sizes: &[u32]) -> u32
    requires few { length sizes.now ≤ most_segments }
    requires small { sum sizes.now ≤ most_cells }
    ensures { result ≡ sum sizes.now }
{
    let all: u64 = sizes.iter().map(|size| u64::from(*size)).sum();
    all as u32
}

/// The turns of the loop over hash instances after the first, for so many words.
pub(crate) fn more_turns(words: u32) -> u32
    ensures value { result ≡ turns_after words }
    ensures few { result ≤ words }
{
    words.saturating_sub(1) / WORDS_PER_TURN as u32
}

/// The zeros that fill the last turn.
pub(crate) fn zeros_for(words: u32) -> u32
    requires { words ≤ most_cells }
    ensures value { result ≡ zeros_of words }
    ensures few { result ≤ 4 }
{
    WORDS_PER_TURN as u32 * (more_turns(words) + 1) - words
}
