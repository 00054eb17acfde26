ghost use Rattle.std.specs.Prelude.{◌≡◌, ◌≤◌, length, map, take, IfOk};
ghost use Rattle.cairo_model.specs.Views.Machine.{datum};
ghost use Rattle.cairo_model.specs.Views.Pie.{memory_cell};
ghost use Rattle.batch_runner.specs.Laws.{IsAccepted};
ghost use Rattle.batch_runner.specs.Layout.{code_of, plain_number};

use crate::place::size_at;
use cairo_model::segments::PROGRAM;
use cairo_model::{Checked, PieCell, Value};
use std::alloc::{AllocError, Global};

/// The words of a task's program: its segment is full and stands first, so they are those of the first cells.
pub(crate) fn program_words(alloc: Global, task: &Checked) -> Result<Vec<u64>, AllocError>
    requires { IsAccepted task.now }
    ensures { IfOk result (λ words. words.items ≡ code_of task.now) }
{
    let size = size_at(task, PROGRAM);
    first_numbers(alloc, task.pie().cells.as_slice(), size as usize)
}

fn first_numbers(alloc: Global, cells: &[PieCell], count: usize) -> Result<Vec<u64>, AllocError>
    requires { count ≤ length cells.now }
    ensures { IfOk result (λ words. words.items ≡ map (λ c. plain_number c.value) (map memory_cell (take count cells.now))) }
{
    numbers_of(alloc, &cells[..count])
}

// The numbers of these cells, 0 for a place.
fn numbers_of(alloc: Global, cells: &[PieCell]) -> Result<Vec<u64>, AllocError>
    ensures { IfOk result (λ words. words.items ≡ map (λ c. plain_number c.value) (map memory_cell cells.now)) }
{
    let mut words = Vec::with_capacity(alloc, cells.len())?;
    for cell in cells {
        words.push(number_in(cell.value))?;
    }
    Ok(words)
}

fn number_in(value: Value) -> u64
    ensures { result ≡ plain_number (datum value) }
{
    match value {
        Value::Number(number) => number.value(),
        Value::At(_) => 0,
    }
}
