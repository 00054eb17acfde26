//! Whether each task stands in the certificate of its batch.

ghost use Rattle.std.specs.Prelude.{◌≡◌, ◌↔◌, ◌+◌, ◌<◌, ℕ, IfNone, IfSome, IsTrue, drop, length, map, option_map, slice_get, take};
ghost use Rattle.boot_program.specs.Faults.Tasks.{IsFirstMissing, IsNumbered, ShowsTask, TaskStands};
ghost use Rattle.cairo_model.specs.Machine.FieldMemories.{cell_at};
ghost use Rattle.cairo_model.specs.Machine.Runs.{IsState};
ghost use Rattle.cairo_model.specs.Pie.Layouts.{base_of, relocated, relocated_state};
ghost use Rattle.cairo_model.specs.Pie.Records.{KeepsRules, memory_of};
ghost use Rattle.cairo_model.specs.Pie.Relocation.{HasRelocated};
ghost use Rattle.cairo_model.specs.Refusals.FirstFailing.{IsFirstFailing};
ghost use Rattle.cairo_model.specs.Segments.{return_pc_segment};
ghost use Rattle.cairo_model.specs.Views.Machine.{datum, field_registers, registers};
ghost use Rattle.cairo_model.specs.Views.Pie.{memory_cell};
ghost use Rattle.row_checker.specs.Working.Tasks.{HasCell, HasCellAt, IsStretch, ShowsPlaced, StandsAt};

use cairo_model::segments::RETURN_PC;
use cairo_model::{
    Cells, Cert, Checked, FieldState, Pie, PieCell, Place, State, TaskMark, Value, felt_of,
};
use goldi_field::Felt;

/// The first task or mark that lacks the other or doesn't stand, and the place that shows it.
pub(crate) fn missing_task(cert: &Cert, tasks: &[Checked]) -> Option<(usize, Place)>
    ensures none { IfNone result ((k : ℕ) → IsNumbered cert.now tasks.now k → TaskStands cert.now tasks.now k) }
    ensures first { IfSome result (λ found. IsFirstFailing (IsNumbered cert.now tasks.now) (TaskStands cert.now tasks.now) found.0) }
    ensures shown { IfSome result (λ found. ShowsTask cert.now tasks.now found.0 found.1.segment found.1.offset) }
{
    for index in 0..tasks.len().max(cert.tasks.len()) {
        if let Some(place) = missing_place(cert, tasks, index) {
            return Some((index, place));
        }
    }
    None
}

fn missing_place(cert: &Cert, tasks: &[Checked], index: usize) -> Option<Place>
    ensures none { IfNone result (TaskStands cert.now tasks.now index) }
    ensures fails { IfSome result (λ _. ¬ TaskStands cert.now tasks.now index) }
    ensures shown { IfSome result (λ at. ShowsTask cert.now tasks.now index at.segment at.offset) }
{
    let Some(mark) = mark_at(cert, index) else {
        return Some(whole_task());
    };
    let Some(task) = task_at(tasks, index) else {
        return Some(whole_task());
    };
    missing_of(cert, mark, task)
}

fn mark_at(cert: &Cert, index: usize) -> Option<&TaskMark>
    ensures { option_map (λ m. m.now) result ≡ slice_get cert.now.tasks index }
{
    cert.tasks.get(index)
}

fn task_at(tasks: &[Checked], index: usize) -> Option<&Checked>
    ensures { option_map (λ t. t.now) result ≡ slice_get tasks.now index }
{
    tasks.get(index)
}

// The place that stands for a task as a whole.
fn whole_task() -> Place
    ensures segment { result.segment ≡ return_pc_segment }
    ensures offset { result.offset ≡ 0 }
{
    Place {
        segment: RETURN_PC,
        offset: 0,
    }
}

fn missing_of(cert: &Cert, mark: &TaskMark, task: &Checked) -> Option<Place>
    ensures none { IfNone result (StandsAt cert.now mark.now task.now) }
    ensures fails { IfSome result (λ _. ¬ StandsAt cert.now mark.now task.now) }
    ensures shown { IfSome result (λ at. ShowsPlaced cert.now mark.now task.now at.segment at.offset) }
{
    if !has_bases(mark, task) {
        return Some(whole_task());
    }
    if let Some(place) = missing_cell(cert, mark, task) {
        return Some(place);
    }
    if !has_states(cert, mark, task) {
        return Some(whole_task());
    }
    None
}

fn has_bases(mark: &TaskMark, task: &Checked) -> bool
    ensures { IsTrue result ↔ (length mark.now.bases ≡ length task.now.pie.sizes) }
{
    mark.bases.len() == task.pie().sizes.len()
}

// The first place of the task whose cell isn't in the certificate.
fn missing_cell(cert: &Cert, mark: &TaskMark, task: &Checked) -> Option<Place>
    ensures none { IfNone result (HasRelocated mark.now.bases (memory_of task.now.pie.cells) (cell_at cert.now.cells)) }
    ensures some { IfSome result (λ at. IsFirstMissing mark.now.bases task.now.pie.cells (cell_at cert.now.cells) at.segment at.offset) }
{
    let _run = task.states();
    missing_in(&cert.cells, mark.bases.as_slice(), task.pie())
}

// Whether the states from the mark's row on are those of the task's isolated run.
fn has_states(cert: &Cert, mark: &TaskMark, task: &Checked) -> bool
    ensures { IsTrue result ↔ (take (task.now.pie.steps + 1) (drop mark.now.row cert.now.states) ≡ map (relocated_state mark.now.bases) task.now.states) }
{
    is_stretch(
        cert.states.as_slice(),
        mark.row,
        mark.bases.as_slice(),
        task.states(),
    )
}

fn missing_in(cells: &Cells, bases: &[Felt], pie: &Pie) -> Option<Place>
    requires { KeepsRules pie.now }
    ensures none { IfNone result (HasRelocated (map (λ f. f.number) bases.now) (memory_of pie.now.cells) (cell_at cells.now)) }
    ensures some { IfSome result (λ at. IsFirstMissing (map (λ f. f.number) bases.now) pie.now.cells (cell_at cells.now) at.segment at.offset) }
{
    let list = pie.cells.as_slice();
    match first_lacking(cells, bases, list) {
        Some(index) => Some(list[index].place),
        None => None,
    }
}

fn first_lacking(cells: &Cells, bases: &[Felt], list: &[PieCell]) -> Option<usize>
    ensures inside { IfSome result (λ i. i < length list.now) }
    ensures none { IfNone result ((k : ℕ) → k < length list.now → HasCellAt (map (λ f. f.number) bases.now) (cell_at cells.now) (map memory_cell list.now) k) }
    ensures some { IfSome result (λ i. IsFirstFailing (λ k. k < length list.now) (HasCellAt (map (λ f. f.number) bases.now) (cell_at cells.now) (map memory_cell list.now)) i) }
{
    for index in 0..list.len() {
        if !has_cell(cells, bases, &list[index]) {
            return Some(index);
        }
    }
    None
}

fn has_cell(cells: &Cells, bases: &[Felt], cell: &PieCell) -> bool
    ensures { IsTrue result ↔ HasCell (map (λ f. f.number) bases.now) (cell_at cells.now) (memory_cell cell.now) }
{
    match cells.get(placed(Value::At(cell.place), bases)) {
        Some(found) => found.value() == placed(cell.value, bases).value(),
        None => false,
    }
}

// Whether the states from a row on are those of a run, relocated.
fn is_stretch(states: &[FieldState], row: u32, bases: &[Felt], run: &[State]) -> bool
    ensures { IsTrue result ↔ IsStretch (map field_registers states.now) row (map (λ f. f.number) bases.now) (map registers run.now) }
{
    for index in 0..run.len() {
        if !is_state(states, row as usize + index, bases, &run[index]) {
            return false;
        }
    }
    true
}

fn is_state(states: &[FieldState], row: usize, bases: &[Felt], state: &State) -> bool
    ensures { IsTrue result ↔ IsState (map field_registers states.now) row (relocated_state (map (λ f. f.number) bases.now) (registers state.now)) }
{
    match states.get(row) {
        Some(found) => same_state(found, &placed_state(state, bases)),
        None => false,
    }
}

fn same_state(one: &FieldState, other: &FieldState) -> bool
    ensures { IsTrue result ↔ (field_registers one.now ≡ field_registers other.now) }
{
    one.pc.value() == other.pc.value()
        && one.ap.value() == other.ap.value()
        && one.fp.value() == other.fp.value()
}

fn placed_state(state: &State, bases: &[Felt]) -> FieldState
    ensures { field_registers result ≡ relocated_state (map (λ f. f.number) bases.now) (registers state.now) }
{
    FieldState {
        pc: placed(state.pc, bases),
        ap: placed(state.ap, bases),
        fp: placed(state.fp, bases),
    }
}

// The value as a field number over any bases, where a segment without one has the base 0.
fn placed(value: Value, bases: &[Felt]) -> Felt
    ensures { result.number ≡ relocated (map (λ f. f.number) bases.now) (datum value) }
{
    match value {
        Value::Number(number) => number,
        Value::At(place) => base_at(bases, place.segment as usize).add(felt_of(place.offset)),
    }
}

fn base_at(bases: &[Felt], segment: usize) -> Felt
    ensures { result.number ≡ base_of (map (λ f. f.number) bases.now) segment }
{
    match bases.get(segment) {
        Some(base) => *base,
        None => Felt::ZERO,
    }
}
