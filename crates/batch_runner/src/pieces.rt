//! Pieces of a memory, one after the other.

ghost use Rattle.std.specs.Prelude.{◌≡◌, ◌+◌, ◌++◌, ◌<◌, ◌^◌, length, map, All, IfOk};
ghost use Rattle.cairo_model.specs.Machine.FieldMemories.{field_cell};
ghost use Rattle.cairo_model.specs.Pie.Layouts.{AreInBounds, base_of, relocated};
ghost use Rattle.cairo_model.specs.Views.Machine.{datum};
ghost use Rattle.cairo_model.specs.Views.Pie.{memory_cell};
ghost use Rattle.relocator.specs.Working.Lists.{IsCellIn, numbers};
ghost use Rattle.batch_runner.specs.Memory.{placed, placed_on};
ghost use Rattle.batch_runner.specs.Pieces.{numbered};

use cairo_model::{PieCell, felt_below, felt_of};
use goldi_field::Felt;
use relocator::relocate_value;
use std::alloc::AllocError;

/// Numbers in order from an address on.
#[tactic(auto, unfolding(crate::specs::Pieces::numbered))]
pub(crate) fn push_numbers(
    cells: Vec<(Felt, Felt)>,
    base: u32,
    values: &[Felt],
) -> Result<Vec<(Felt, Felt)>, AllocError>
    ensures { IfOk result (λ out. map field_cell out.items ≡ map field_cell cells.items ++ numbered base (numbers values.now)) }
{
    let mut out = cells;
    let mut address = u64::from(base);
    for value in values {
        out.push((felt_below(address), *value))?;
        address += 1;
    }
    Ok(out)
}

/// A segment's cells, relocated.
#[tactic(auto, unfolding(crate::specs::Memory::placed))]
pub(crate) fn push_segment(
    cells: Vec<(Felt, Felt)>,
    pie_cells: &[PieCell],
    segment: u16,
    bases: &[Felt],
) -> Result<Vec<(Felt, Felt)>, AllocError>
    requires inside { All (IsCellIn (length bases.now)) pie_cells.now }
    requires low { AreInBounds (numbers bases.now) }
    ensures { IfOk result (λ out. map field_cell out.items ≡ map field_cell cells.items ++ placed (numbers bases.now) segment (map memory_cell pie_cells.now)) }
{
    let mut out = cells;
    for cell in pie_cells {
        if cell.place.segment == segment {
            out.push(placed_cell(cell, bases))?;
        }
    }
    Ok(out)
}

/// The cells of so many segments, one after the other.
#[tactic(auto, unfolding(crate::specs::Memory::placed_on))]
pub(crate) fn push_segments(
    cells: Vec<(Felt, Felt)>,
    pie_cells: &[PieCell],
    first: u16,
    sizes: &[u32],
    bases: &[Felt],
) -> Result<Vec<(Felt, Felt)>, AllocError>
    requires few { first + length sizes.now < 2 ^ 16 }
    requires inside { All (IsCellIn (length bases.now)) pie_cells.now }
    requires low { AreInBounds (numbers bases.now) }
    ensures { IfOk result (λ out. map field_cell out.items ≡ map field_cell cells.items ++ placed_on (numbers bases.now) first sizes.now (map memory_cell pie_cells.now)) }
{
    let mut out = cells;
    let mut segment = first;
    for _size in sizes {
        out = push_segment(out, pie_cells, segment, bases)?;
        segment += 1;
    }
    Ok(out)
}

fn placed_cell(cell: &PieCell, bases: &[Felt]) -> (Felt, Felt)
    requires inside { IsCellIn (length bases.now) cell.now }
    requires low { base_of (numbers bases.now) cell.now.place.segment < 2 ^ 32 }
    ensures { field_cell result ≡ (base_of (numbers bases.now) cell.now.place.segment + cell.now.place.offset, relocated (numbers bases.now) (datum cell.now.value)) }
{
    (
        bases[usize::from(cell.place.segment)].add(felt_of(cell.place.offset)),
        relocate_value(cell.value, bases),
    )
}
