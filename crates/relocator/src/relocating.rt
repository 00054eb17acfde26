ghost use Rattle.std.specs.Prelude.{◌≡◌, ℕ, Option, map, IfOk};
ghost use Rattle.cairo_model.specs.Machine.FieldMemories.{field_cell, cell_at};
ghost use Rattle.cairo_model.specs.Pie.Layouts.{Fits, relocated_state};
ghost use Rattle.cairo_model.specs.Pie.Records.{KeepsRules};
ghost use Rattle.cairo_model.specs.Views.Machine.{registers, field_registers};
ghost use Rattle.cairo_model.specs.Pie.Relocation.{HasCells};
ghost use Rattle.relocator.specs.Working.Lists.{numbers, StartsInside};
ghost use Rattle.relocator.specs.Placing.{ArePlaced, RunsAsPlaced};

use crate::laws::runs_anywhere;
use crate::lists::{relocate_cells, relocate_states};
use crate::sorting::sorted_cells;
use cairo_model::{Checked, FieldState, Layout, Pie, State, pie_states_stay};
use goldi_field::Felt;
use std::alloc::{AllocError, Global};

/// The cells and states of a PIE's isolated run, placed by a layout: the cells by rising addresses, the states in order.
#[derive(Debug, Drop)]
pub struct Placed {
    pub cells: Vec<(Felt, Felt)>,
    pub states: Vec<FieldState>,
}

/// Every cell and every state, relocated. The field machine runs through the states over these cells, and over every
/// memory that has them.
pub fn relocate(alloc: Global, checked: &Checked, layout: &Layout) -> Result<Placed, AllocError>
    requires { Fits layout.now checked.now.pie.sizes }
    ensures cells { IfOk result (λ p. ArePlaced layout.now checked.now.pie.cells (map field_cell p.cells.items)) }
    ensures states { IfOk result (λ p. map field_registers p.states.items ≡ map (relocated_state layout.now) checked.now.states) }
    ensures runs { IfOk result (λ p. RunsAsPlaced layout.now checked.now (cell_at (map field_cell p.cells.items)) (map field_registers p.states.items)) }
    ensures runs_anywhere { IfOk result (λ p. (field : ℕ → Option ℕ) → HasCells (map field_cell p.cells.items) field → RunsAsPlaced layout.now checked.now field (map field_registers p.states.items)) }
{
    runs_anywhere();
    let pie = checked.pie();
    let run = checked.states();
    let bases = layout.bases.as_slice();
    let cells = place_cells(alloc, pie, bases)?;
    let states = place_states(alloc, pie, run, bases)?;
    Ok(Placed { cells, states })
}

fn place_cells(alloc: Global, pie: &Pie, bases: &[Felt]) -> Result<Vec<(Felt, Felt)>, AllocError>
    requires fits { Fits (numbers bases.now) pie.now.sizes }
    requires rules { KeepsRules pie.now }
    ensures { IfOk result (λ out. ArePlaced (numbers bases.now) pie.now.cells (map field_cell out.items)) }
{
    let placed = relocate_cells(alloc, pie.cells.as_slice(), bases)?;
    sorted_cells(placed)
}

fn place_states(
    alloc: Global,
    pie: &Pie,
    states: &[State],
    bases: &[Felt],
) -> Result<Vec<FieldState>, AllocError>
    requires fits { Fits (numbers bases.now) pie.now.sizes }
    requires runs { StartsInside pie.now (map registers states.now) }
    ensures { IfOk result (λ out. map field_registers out.items ≡ map (relocated_state (numbers bases.now)) (map registers states.now)) }
{
    pie_states_stay();
    relocate_states(alloc, states, bases)
}
