//! The rows in chunks, walked side by side.

ghost use Rattle.std.specs.Prelude.{ℕ, ◌≡◌, ◌<◌, ◌+◌, IfOk, is_ok, length, true};
ghost use Rattle.std.specs.List.{AllZip};
ghost use Rattle.row_checker.specs.Working.Chunks.{AnswersChunk, AreChunks, first_of};
ghost use Rattle.row_checker.specs.Working.Walks.{IsAnswer, Leads};

use crate::rows::first_bad_row;
use cairo_model::{Cells, FieldState};
use rayon::prelude::*;
use std::alloc::{AllocError, Global};
use std::thread::Threads;

/// In how many chunks the rows of a certificate are checked, each in a thread of its own where there are processors.
pub const CHUNKS: usize = 8;

/// Fewer rows than these are not worth a thread of their own (docs/BENCHMARK.md, 'Chunks').
const LEAST_ROWS: usize = 8192;

/// The first row that doesn't lead to the next state, found in so many chunks at most. With one chunk it takes no memory.
pub(crate) fn first_bad(
    rt: &(impl Threads + Sync),
    alloc: Global,
    memory: &Cells,
    states: &[FieldState],
    count: usize,
) -> Result<Option<usize>, AllocError>
    requires some { 0 < count }
    requires state { 0 < length states.now }
    ensures answer { IfOk result (λ row. (rows : ℕ) → rows + 1 ≡ length states.now → IsAnswer (Leads memory.now states.now) 0 rows row) }
    ensures one_chunk { count ≡ 1 → is_ok result ≡ true }
{
    if count == 1 {
        return Ok(first_bad_row(memory, states, 0, states.len() - 1));
    }
    in_chunks(rt, alloc, memory, states, count)
}

fn in_chunks(
    rt: &(impl Threads + Sync),
    alloc: Global,
    memory: &Cells,
    states: &[FieldState],
    count: usize,
) -> Result<Option<usize>, AllocError>
    requires some { 0 < count }
    requires state { 0 < length states.now }
    ensures { IfOk result (λ row. (rows : ℕ) → rows + 1 ≡ length states.now → IsAnswer (Leads memory.now states.now) 0 rows row) }
{
    let chunks = cut(alloc, states.len() - 1, count)?;
    let answers = chunk_answers(rt, alloc, memory, states, chunks.as_slice())?;
    Ok(first_answer(answers.as_slice()))
}

// Rows cut into chunks of one size but the last, `count` at most, and fewer where there are few rows.
#[tactic(auto, using(crate::proofs::Cutting::one_further), unfolding(crate::specs::Working::Chunks::AreChunks))]
fn cut(alloc: Global, rows: usize, count: usize) -> Result<Vec<(usize, usize)>, AllocError>
    requires { 0 < count }
    ensures { IfOk result (λ v. AreChunks 0 v.items rows) }
{
    let size = (rows / count).max(LEAST_ROWS);
    let mut chunks: Vec<(usize, usize)> = Vec::new(alloc);
    let mut first = 0;
    while first < rows {
        let stop = if rows - first > size {
            first + size + 1
        } else {
            rows
        };
        chunks.push((first, stop))?;
        first = stop;
    }
    Ok(chunks)
}

// The first bad row of each chunk, in order. A chunk is worth a thread, few as they are.
fn chunk_answers(
    rt: &(impl Threads + Sync),
    alloc: Global,
    memory: &Cells,
    states: &[FieldState],
    chunks: &[(usize, usize)],
) -> Result<Vec<Option<usize>>, AllocError>
    ensures { IfOk result (λ v. AllZip (λ chunk answer. AnswersChunk memory.now states.now chunk answer) chunks.now v.items) }
{
    chunks
        .par_iter()
        .with_min_len(1)
        .map(
            |chunk: &(usize, usize)| -> Option<usize>
                ensures { AnswersChunk memory.entry.now states.entry.now chunk.now result }
            {
                if chunk.1 < states.len() {
                    first_bad_row(memory, states, chunk.0, chunk.1)
                } else {
                    None
                }
            },
        )
        .collect(rt, alloc)
}

#[tactic(auto, unfolding(crate::specs::Working::Chunks::first_of))]
fn first_answer(answers: &[Option<usize>]) -> Option<usize>
    ensures { result ≡ first_of answers.now }
{
    for answer in answers {
        if let Some(row) = answer {
            return Some(*row);
        }
    }
    None
}
