//! The rows one after the other.

ghost use Rattle.std.specs.Prelude.{◌+◌, ◌<◌, length, map};
ghost use Rattle.boot_program.specs.Faults.Rules.{IsRowCause, StopsBy};
ghost use Rattle.cairo_model.specs.Machine.FieldMemories.{cell_at};
ghost use Rattle.cairo_model.specs.Machine.Steps.{Step, field_arithmetic};
ghost use Rattle.cairo_model.specs.Views.Machine.{field_registers};
ghost use Rattle.row_checker.specs.Working.Walks.{IsAnswer, Leads};

use boot_program::RowCause;
use cairo_model::{Cells, FieldState};
use cairo_step::{row_holds, step};

/// The first row from `first` to below `stop` that doesn't lead to the next state. Takes no memory.
pub(crate) fn first_bad_row(
    memory: &Cells,
    states: &[FieldState],
    first: usize,
    stop: usize,
) -> Option<usize>
    requires { stop < length states.now }
    ensures { IsAnswer (Leads memory.now states.now) first stop result }
{
    for row in first..stop {
        if !row_holds(memory, states[row], states[row + 1]) {
            return Some(row);
        }
    }
    None
}

/// Why the state of this row doesn't lead to the next one.
pub(crate) fn cause_at(memory: &Cells, states: &[FieldState], row: usize) -> RowCause
    requires inside { row + 1 < length states.now }
    requires bad { ¬ Leads memory.now states.now row }
    ensures { IsRowCause memory.now (map field_registers states.now) row result }
{
    row_cause(memory, states[row], states[row + 1])
}

fn row_cause(memory: &Cells, state: FieldState, after: FieldState) -> RowCause
    requires { ¬ Step field_arithmetic (cell_at memory.now) (field_registers state) (field_registers after) }
    ensures { StopsBy memory.now (field_registers state) (field_registers after) result }
{
    match step(memory, state) {
        Ok(_) => RowCause::Next,
        Err(fault) => RowCause::Fault(fault),
    }
}
