//! All cells of a batch.

ghost use Rattle.std.specs.Prelude.{◌≡◌, ◌+◌, ◌++◌, ◌<◌, ◌≤◌, length, map, All, IfOk};
ghost use Rattle.boot_program.specs.Batch.Limits.{most_batch_tasks};
ghost use Rattle.cairo_model.specs.Machine.FieldMemories.{field_cell};
ghost use Rattle.goldi_field.specs.Numbers.{IsFelt};
ghost use Rattle.relocator.specs.Working.Lists.{numbers};
ghost use Rattle.batch_runner.specs.Memory.{words_part};
ghost use Rattle.batch_runner.specs.Pieces.{numbered};
ghost use Rattle.batch_runner.specs.Working.Places.{place_of};
ghost use Rattle.batch_runner.specs.Working.Placing.{boot_frame_list, cells_in_turn, last_state_list};

use crate::parts::{Part, push_all, push_frames};
use crate::pieces::push_numbers;
use crate::place::TaskPlace;
use crate::placed::PlacedTask;
use batch_plan::lengths::LOOP_STATE;
use boot_program::{BOOT_END, boot_words};
use cairo_model::{felt_below, felt_of};
use goldi_field::Felt;
use std::alloc::{AllocError, Global};

/// All cells by rising addresses, where the first task begins so. There is room at once for as many as there are addresses below
/// the free one.
pub(crate) fn batch_cells(
    alloc: Global,
    first: &TaskPlace,
    free: u32,
    tasks: &[PlacedTask],
) -> Result<Vec<(Felt, Felt)>, AllocError>
    requires above { 5 ≤ first.now.output }
    requires few { length tasks.now ≤ most_batch_tasks }
    ensures { IfOk result (λ out. map field_cell out.items ≡ cells_in_turn (place_of first.now) tasks.now) }
{
    let room = Vec::with_capacity(alloc, free as usize)?;
    let words = push_boot(room)?;
    let frame = push_numbers(words, BOOT_END as u32 + 1, &boot_frame_values(first))?;
    let frames = push_frames(alloc, frame, tasks)?;
    let state = first.output - 1 - LOOP_STATE as u32;
    let last = push_numbers(frames, state, &last_state_values(first))?;
    let count = push_numbers(last, first.output - 1, &[felt_of(tasks.len() as u32)])?;
    let outputs = push_all(alloc, count, tasks, Part::Outputs)?;
    let ranges = push_all(alloc, outputs, tasks, Part::Ranges)?;
    let hashes = push_all(alloc, ranges, tasks, Part::Hashes)?;
    push_all(alloc, hashes, tasks, Part::Programs)
}

// The bootloader's words, the first at address 1.
fn push_boot(cells: Vec<(Felt, Felt)>) -> Result<Vec<(Felt, Felt)>, AllocError>
    ensures { IfOk result (λ out. map field_cell out.items ≡ map field_cell cells.items ++ words_part) }
{
    push_code(cells, 1, boot_words())
}

#[tactic(auto, unfolding(crate::specs::Pieces::numbered))]
fn push_code(
    cells: Vec<(Felt, Felt)>,
    base: u32,
    words: &[u64],
) -> Result<Vec<(Felt, Felt)>, AllocError>
    requires { All IsFelt words.now }
    ensures { IfOk result (λ out. map field_cell out.items ≡ map field_cell cells.items ++ numbered base words.now) }
{
    let mut out = cells;
    let mut address = u64::from(base);
    for word in words {
        out.push((felt_below(address), felt_below(*word)))?;
        address += 1;
    }
    Ok(out)
}

fn boot_frame_values(first: &TaskPlace) -> [Felt; 5]
    requires { 1 ≤ first.now.output }
    ensures { numbers result ≡ boot_frame_list (place_of first.now) }
{
    [
        felt_of(first.output - 1),
        felt_of(first.range),
        felt_of(first.hash),
        felt_of(0),
        felt_below(BOOT_END),
    ]
}

// No task is left, and the pointers are where the spans end.
fn last_state_values(first: &TaskPlace) -> [Felt; 4]
    ensures { numbers result ≡ last_state_list (place_of first.now) }
{
    [
        felt_of(0),
        felt_of(first.range),
        felt_of(first.hash),
        felt_of(first.program),
    ]
}
