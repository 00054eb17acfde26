ghost use Rattle.std.specs.Prelude.{◌≡◌, ◌<◌, ◌≤◌, ◌^◌, drop, length, slice_index, sum};
ghost use Rattle.cairo_model.specs.Limits.{least_segments, most_cells, most_segments};
ghost use Rattle.cairo_model.specs.Pie.Records.{AreSizes};
ghost use Rattle.batch_plan.specs.Parts.{task_parts, moved_by, hash_turns as turns_of_words, own_cells, own_instances};
ghost use Rattle.batch_plan.specs.Working.Parts.{AreAtMost, most_part_cells, parts_of_code};

use crate::lengths::{
    CALL, HASH_TURN, HEADER, HEADER_COPY, INSTANCE, LOOP_STATE, TASK_FRAME, WORDS_PER_TURN, ZEROS,
};
use cairo_model::limits::LEAST_SEGMENTS;
use cairo_model::segments::{EXECUTION, HASH, OUTPUT, PROGRAM, RANGE};

/// A number of cells in each part of a batch's memory, or an address in each.
#[derive(Clone, Copy, Debug)]
pub(crate) struct PartCells {
    pub frame: u64,
    pub output: u64,
    pub range: u64,
    pub hash: u64,
    pub program: u64,
}

/// How much of each part a task takes whose segments have these sizes.
pub(crate) fn task_cells(sizes: &[u32]) -> PartCells
    requires { AreSizes sizes.now }
    ensures parts { parts_of_code result ≡ task_parts sizes.now }
    ensures few { AreAtMost most_part_cells (parts_of_code result) }
{
    let words = size_at(sizes, PROGRAM);
    PartCells {
        frame: cells_before_task(words) + size_at(sizes, EXECUTION),
        output: HEADER + size_at(sizes, OUTPUT),
        range: size_at(sizes, RANGE),
        hash: instances_before_task(words) + size_at(sizes, HASH),
        program: words + ZEROS + size_of_others(sizes),
    }
}

/// So much further on in each part.
pub(crate) fn further(at: &PartCells, by: &PartCells) -> PartCells
    requires low { AreAtMost (2 ^ 32) (parts_of_code at.now) }
    requires few { AreAtMost most_part_cells (parts_of_code by.now) }
    ensures { parts_of_code result ≡ moved_by (parts_of_code at.now) (parts_of_code by.now) }
{
    PartCells {
        frame: at.frame + by.frame,
        output: at.output + by.output,
        range: at.range + by.range,
        hash: at.hash + by.hash,
        program: at.program + by.program,
    }
}

/// The size of a segment that each PIE has.
pub(crate) fn size_at(sizes: &[u32], segment: u16) -> u64
    requires { segment < length sizes.now }
    ensures value { result ≡ slice_index sizes.now segment }
    ensures small { result < 2 ^ 32 }
{
    u64::from(sizes[usize::from(segment)])
}

/// The bootloader's cells from the state of its loop over tasks to a task's own, for a program of so many words.
pub(crate) fn cells_before_task(words: u64) -> u64
    requires { words < 2 ^ 32 }
    ensures value { result ≡ own_cells words }
    ensures small { result < 2 ^ 40 }
{
    LOOP_STATE + CALL + TASK_FRAME + HEADER_COPY + HASH_TURN * hash_turns(words)
}

/// The cells of the bootloader's hash instances for a program of so many words.
pub(crate) fn instances_before_task(words: u64) -> u64
    requires { words < 2 ^ 32 }
    ensures value { result ≡ own_instances words }
    ensures small { result < 2 ^ 40 }
{
    INSTANCE * (hash_turns(words) + 1)
}

fn hash_turns(words: u64) -> u64
    requires { words < 2 ^ 32 }
    ensures { result ≡ turns_of_words words }
{
    (words + (WORDS_PER_TURN - 1)) / WORDS_PER_TURN
}

fn size_of_others(sizes: &[u32]) -> u64
    requires { AreSizes sizes.now }
    ensures value { result ≡ sum (drop least_segments sizes.now) }
    ensures small { result ≤ most_cells }
{
    total(&sizes[LEAST_SEGMENTS..])
}

fn total(sizes: &[u32]) -> u64
    requires { length sizes.now ≤ most_segments }
    ensures { result ≡ sum sizes.now }
{
    sizes.iter().map(|size| u64::from(*size)).sum()
}
