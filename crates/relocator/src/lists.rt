ghost use Rattle.std.specs.Prelude.{◌≡◌, length, map, All, IfOk};
ghost use Rattle.cairo_model.specs.Machine.FieldMemories.{field_cell};
ghost use Rattle.cairo_model.specs.Pie.Layouts.{relocated_cell, relocated_state};
ghost use Rattle.cairo_model.specs.Views.Pie.{memory_cell};
ghost use Rattle.cairo_model.specs.Views.Machine.{registers, field_registers};
ghost use Rattle.relocator.specs.Working.Lists.{numbers, IsCellIn, IsStateIn};

use crate::values::relocate_value;
use cairo_model::{FieldState, PieCell, State, Value};
use goldi_field::Felt;
use std::alloc::{AllocError, Global};

/// The cells over these bases, in the order in which they stand.
pub(crate) fn relocate_cells(
    alloc: Global,
    cells: &[PieCell],
    bases: &[Felt],
) -> Result<Vec<(Felt, Felt)>, AllocError>
    requires { All (IsCellIn (length bases.now)) cells.now }
    ensures { IfOk result (λ out. map field_cell out.items ≡ map (relocated_cell (numbers bases.now)) (map memory_cell cells.now)) }
{
    let mut out = Vec::new(alloc);
    for cell in cells {
        out.push(relocate_cell(cell, bases))?;
    }
    Ok(out)
}

fn relocate_cell(cell: &PieCell, bases: &[Felt]) -> (Felt, Felt)
    requires { IsCellIn (length bases.now) cell.now }
    ensures { field_cell result ≡ relocated_cell (numbers bases.now) (memory_cell cell.now) }
{
    (
        relocate_value(Value::At(cell.place), bases),
        relocate_value(cell.value, bases),
    )
}

/// The states over these bases.
pub(crate) fn relocate_states(
    alloc: Global,
    states: &[State],
    bases: &[Felt],
) -> Result<Vec<FieldState>, AllocError>
    requires { All (IsStateIn (length bases.now)) states.now }
    ensures { IfOk result (λ out. map field_registers out.items ≡ map (relocated_state (numbers bases.now)) (map registers states.now)) }
{
    let mut out = Vec::new(alloc);
    for state in states {
        out.push(relocate_state(state, bases))?;
    }
    Ok(out)
}

fn relocate_state(state: &State, bases: &[Felt]) -> FieldState
    requires { IsStateIn (length bases.now) state.now }
    ensures { field_registers result ≡ relocated_state (numbers bases.now) (registers state.now) }
{
    FieldState {
        pc: relocate_value(state.pc, bases),
        ap: relocate_value(state.ap, bases),
        fp: relocate_value(state.fp, bases),
    }
}
