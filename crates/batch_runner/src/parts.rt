//! The parts of a batch's memory, each task after task.

ghost use Rattle.std.specs.Prelude.{◌≡◌, ◌+◌, ◌<◌, ◌^◌, ◌++◌, length, map, IfOk};
ghost use Rattle.cairo_model.specs.Machine.FieldMemories.{field_cell};
ghost use Rattle.batch_runner.specs.Memory.{turn_cells};
ghost use Rattle.batch_runner.specs.Working.Placing.{all_frame_cells, cells_in, each_in_turn, frame_cells, hash_cells, header_cells, instance_cells, other_cells, output_cells, program_cells, segment_cells, zero_cells};

use crate::pieces::{push_numbers, push_segment, push_segments};
use crate::place::size_at;
use crate::placed::PlacedTask;
use crate::values::{header_values, instance_values, own_values};
use cairo_model::felt_of;
use cairo_model::limits::LEAST_SEGMENTS;
use cairo_model::segments::{EXECUTION, HASH, OUTPUT, PROGRAM, RANGE};
use goldi_field::Felt;
use std::alloc::{AllocError, Global};

/// The frames: the bootloader's cells for each task, and the task's segment 1.
#[tactic(auto, unfolding(crate::specs::Working::Placing::all_frame_cells))]
pub(crate) fn push_frames(
    alloc: Global,
    cells: Vec<(Felt, Felt)>,
    tasks: &[PlacedTask],
) -> Result<Vec<(Felt, Felt)>, AllocError>
    requires { length tasks.now < 2 ^ 32 }
    ensures { IfOk result (λ out. map field_cell out.items ≡ map field_cell cells.items ++ all_frame_cells tasks.now) }
{
    let mut out = cells;
    let mut left = tasks.len() as u32;
    for task in tasks {
        out = push_frame(alloc, out, left, task)?;
        left -= 1;
    }
    Ok(out)
}

fn push_frame(
    alloc: Global,
    cells: Vec<(Felt, Felt)>,
    left: u32,
    task: &PlacedTask,
) -> Result<Vec<(Felt, Felt)>, AllocError>
    ensures { IfOk result (λ out. map field_cell out.items ≡ map field_cell cells.items ++ frame_cells left task.now) }
{
    let with_own = push_own(alloc, cells, left, task)?;
    push_part(with_own, task, EXECUTION)
}

fn push_own(
    alloc: Global,
    cells: Vec<(Felt, Felt)>,
    left: u32,
    task: &PlacedTask,
) -> Result<Vec<(Felt, Felt)>, AllocError>
    ensures { IfOk result (λ out. map field_cell out.items ≡ map field_cell cells.items ++ turn_cells left task.now.task task.now.place) }
{
    let own = own_values(alloc, left, task)?;
    push_numbers(cells, task.at().frame, own.as_slice())
}

/// The parts that hold no more than the tasks bring: headers and outputs, range cells, hash instances, and programs with what has
/// no span of its own.
#[derive(Clone, Copy, Debug)]
pub(crate) enum Part {
    Outputs,
    Ranges,
    Hashes,
    Programs,
}

/// A part, task after task.
#[tactic(auto, unfolding(crate::specs::Working::Placing::each_in_turn))]
pub(crate) fn push_all(
    alloc: Global,
    cells: Vec<(Felt, Felt)>,
    tasks: &[PlacedTask],
    part: Part,
) -> Result<Vec<(Felt, Felt)>, AllocError>
    ensures { IfOk result (λ out. map field_cell out.items ≡ map field_cell cells.items ++ each_in_turn (cells_in part) tasks.now) }
{
    let mut out = cells;
    for task in tasks {
        out = push_task(alloc, out, task, part)?;
    }
    Ok(out)
}

fn push_task(
    alloc: Global,
    cells: Vec<(Felt, Felt)>,
    task: &PlacedTask,
    part: Part,
) -> Result<Vec<(Felt, Felt)>, AllocError>
    ensures { IfOk result (λ out. map field_cell out.items ≡ map field_cell cells.items ++ cells_in part task.now) }
{
    match part {
        Part::Outputs => push_output(alloc, cells, task),
        Part::Ranges => push_part(cells, task, RANGE),
        Part::Hashes => push_hash(alloc, cells, task),
        Part::Programs => push_program(cells, task),
    }
}

fn push_output(
    alloc: Global,
    cells: Vec<(Felt, Felt)>,
    task: &PlacedTask,
) -> Result<Vec<(Felt, Felt)>, AllocError>
    ensures { IfOk result (λ out. map field_cell out.items ≡ map field_cell cells.items ++ output_cells task.now) }
{
    let with_header = push_header(alloc, cells, task)?;
    push_part(with_header, task, OUTPUT)
}

fn push_header(
    alloc: Global,
    cells: Vec<(Felt, Felt)>,
    task: &PlacedTask,
) -> Result<Vec<(Felt, Felt)>, AllocError>
    ensures { IfOk result (λ out. map field_cell out.items ≡ map field_cell cells.items ++ header_cells task.now) }
{
    let header = header_values(alloc, task)?;
    push_numbers(cells, task.at().output, header.as_slice())
}

fn push_hash(
    alloc: Global,
    cells: Vec<(Felt, Felt)>,
    task: &PlacedTask,
) -> Result<Vec<(Felt, Felt)>, AllocError>
    ensures { IfOk result (λ out. map field_cell out.items ≡ map field_cell cells.items ++ hash_cells task.now) }
{
    let with_instances = push_instances(alloc, cells, task)?;
    push_part(with_instances, task, HASH)
}

fn push_instances(
    alloc: Global,
    cells: Vec<(Felt, Felt)>,
    task: &PlacedTask,
) -> Result<Vec<(Felt, Felt)>, AllocError>
    ensures { IfOk result (λ out. map field_cell out.items ≡ map field_cell cells.items ++ instance_cells task.now) }
{
    let instances = instance_values(alloc, task)?;
    push_numbers(cells, task.at().hash, instances.as_slice())
}

fn push_program(
    cells: Vec<(Felt, Felt)>,
    task: &PlacedTask,
) -> Result<Vec<(Felt, Felt)>, AllocError>
    ensures { IfOk result (λ out. map field_cell out.items ≡ map field_cell cells.items ++ program_cells task.now) }
{
    let with_words = push_part(cells, task, PROGRAM)?;
    let with_zeros = push_zeros(with_words, task)?;
    push_others(with_zeros, task)
}

fn push_zeros(cells: Vec<(Felt, Felt)>, task: &PlacedTask) -> Result<Vec<(Felt, Felt)>, AllocError>
    ensures { IfOk result (λ out. map field_cell out.items ≡ map field_cell cells.items ++ zero_cells task.now) }
{
    let start = task.at().program + size_at(task.task(), PROGRAM);
    push_numbers(cells, start, &[felt_of(0), felt_of(0), felt_of(0)])
}

fn push_others(cells: Vec<(Felt, Felt)>, task: &PlacedTask) -> Result<Vec<(Felt, Felt)>, AllocError>
    ensures { IfOk result (λ out. map field_cell out.items ≡ map field_cell cells.items ++ other_cells task.now) }
{
    let pie = task.task().pie();
    let others = &pie.sizes[LEAST_SEGMENTS..];
    push_segments(
        cells,
        pie.cells.as_slice(),
        LEAST_SEGMENTS as u16,
        others,
        task.bases(),
    )
}

fn push_part(
    cells: Vec<(Felt, Felt)>,
    task: &PlacedTask,
    segment: u16,
) -> Result<Vec<(Felt, Felt)>, AllocError>
    ensures { IfOk result (λ out. map field_cell out.items ≡ map field_cell cells.items ++ segment_cells segment task.now) }
{
    let pie = task.task().pie();
    push_segment(cells, pie.cells.as_slice(), segment, task.bases())
}
