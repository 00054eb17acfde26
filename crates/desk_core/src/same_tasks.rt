// Where the tasks of a parcel differ from those of a batch.
ghost use Rattle.std.specs.Prelude.{ℕ, ◌≡◌, ◌↔◌, ◌≤◌, IsTrue, length, map, slice_get};
ghost use Rattle.boot_program.specs.Batch.Limits.{most_batch_tasks};
ghost use Rattle.cairo_model.specs.Views.Machine.{datum};
ghost use Rattle.cairo_model.specs.Views.Pie.{memory_cell};
ghost use Rattle.desk_core.specs.Registrations.{SamePieAt, pies_in};
ghost use Rattle.desk_core.specs.Working.Registering.{IsFound, SameTaskAt, checked_in};

use crate::job::Job;
use cairo_model::{Checked, Pie, PieCell, Value};

// The least index at which they differ.
pub(crate) fn first_difference(tasks: &[Checked], kept: &[Job]) -> Option<u32>
    requires few { length tasks.now ≤ most_batch_tasks }
    requires few_kept { length kept.now ≤ most_batch_tasks }
    ensures { IsFound tasks.now (checked_in kept.now) result }
{
    for index in 0..longer(tasks.len(), kept.len()) {
        if !same_at(tasks, kept, index) {
            return Some(index as u32);
        }
    }
    None
}

fn longer(one: usize, other: usize) -> usize
    ensures one { one ≤ result }
    ensures other { other ≤ result }
    ensures least { (n : ℕ) → one ≤ n → other ≤ n → result ≤ n }
{
    if one < other { other } else { one }
}

// Whether both have the same task at the index, or both have none there.
fn same_at(tasks: &[Checked], kept: &[Job], index: usize) -> bool
    ensures pies { IsTrue result ↔ SamePieAt (pies_in tasks.now) (pies_in (checked_in kept.now)) index }
    ensures tasks { IsTrue result → SameTaskAt tasks.now (checked_in kept.now) index }
{
    match (tasks.get(index), kept.get(index)) {
        (Some(task), Some(job)) => same_task(task, &job.checked),
        (None, None) => true,
        _ => false,
    }
}

// An accepted PIE has one fact and one run, so tasks with the same PIE are the same.
fn same_task(one: &Checked, other: &Checked) -> bool
    ensures pies { IsTrue result ↔ (one.now.pie ≡ other.now.pie) }
    ensures tasks { IsTrue result → one.now ≡ other.now }
{
    let _ = one.states();
    let _ = other.states();
    same_pie(one.pie(), other.pie())
}

fn same_pie(one: &Pie, other: &Pie) -> bool
    ensures { IsTrue result ↔ (one.now ≡ other.now) }
{
    one.main == other.main
        && one.steps == other.steps
        && same_sizes(one.sizes.as_slice(), other.sizes.as_slice())
        && same_cells(one.cells.as_slice(), other.cells.as_slice())
}

fn same_sizes(one: &[u32], other: &[u32]) -> bool
    ensures { IsTrue result ↔ (one.now ≡ other.now) }
{
    one == other
}

fn same_cells(one: &[PieCell], other: &[PieCell]) -> bool
    ensures { IsTrue result ↔ (map memory_cell one.now ≡ map memory_cell other.now) }
{
    for index in 0..longer(one.len(), other.len()) {
        if !same_cell_at(one, other, index) {
            return false;
        }
    }
    true
}

fn same_cell_at(one: &[PieCell], other: &[PieCell], index: usize) -> bool
    ensures { IsTrue result ↔ (slice_get (map memory_cell one.now) index ≡ slice_get (map memory_cell other.now) index) }
{
    match (one.get(index), other.get(index)) {
        (Some(cell), Some(wanted)) => same_cell(cell, wanted),
        (None, None) => true,
        _ => false,
    }
}

fn same_cell(one: &PieCell, other: &PieCell) -> bool
    ensures { IsTrue result ↔ (memory_cell one.now ≡ memory_cell other.now) }
{
    one.place.segment == other.place.segment
        && one.place.offset == other.place.offset
        && same_value(&one.value, &other.value)
}

fn same_value(one: &Value, other: &Value) -> bool
    ensures { IsTrue result ↔ (datum one.now ≡ datum other.now) }
{
    match (one, other) {
        (Value::Number(number), Value::Number(wanted)) => number.value() == wanted.value(),
        (Value::At(place), Value::At(wanted)) => {
            place.segment == wanted.segment && place.offset == wanted.offset
        }
        _ => false,
    }
}
