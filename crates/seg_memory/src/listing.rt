ghost use Rattle.std.specs.Prelude.{◌≡◌, ◌++◌, ◌<◌, map, OnOk};
ghost use Rattle.cairo_model.specs.Limits.{offset_limit};
ghost use Rattle.cairo_model.specs.Views.Pie.{memory_cell};
ghost use Rattle.seg_memory.specs.Memory.{cell_of};
ghost use Rattle.seg_memory.specs.Working.Pages.{one_cell, with_segment};

use crate::memory::SegMemory;
use cairo_model::{PieCell, Place};
use std::alloc::AllocError;

// Adds the cells of a segment below this size.
pub(crate) fn add_segment(
    memory: &SegMemory,
    segment: u16,
    size: u32,
    cells: &mut Vec<PieCell>,
) -> Result<(), AllocError>
    requires { size < offset_limit }
    ensures { OnOk result (map memory_cell cells.new.items ≡ with_segment (cell_of memory.now) (map memory_cell cells.old.items) segment size) }
{
    for offset in 0..size {
        add_cell(memory, Place { segment, offset }, cells)?;
    }
    Ok(())
}

// Adds the cell of a place, where a value stands there.
fn add_cell(memory: &SegMemory, place: Place, cells: &mut Vec<PieCell>) -> Result<(), AllocError>
    ensures { OnOk result (map memory_cell cells.new.items ≡ map memory_cell cells.old.items ++ one_cell place.segment place.offset (cell_of memory.now place.segment place.offset)) }
{
    if let Some(value) = memory.get(place) {
        cells.push(PieCell { place, value })?;
    }
    Ok(())
}
