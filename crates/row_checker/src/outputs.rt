//! What the tasks of a batch print together, beside what its certificate prints.

ghost use Rattle.std.specs.Prelude.{◌≡◌, ◌++◌, ◌≤◌, ◌<◌, ◌^◌, ◌↔◌, ℕ, IfNone, IfOk, IfSome, IsTrue, Some, length, map, option_map, slice_get};
ghost use Rattle.boot_program.specs.Batch.Acceptance.{facts_of};
ghost use Rattle.boot_program.specs.Batch.Output.{batch_output, task_output};
ghost use Rattle.boot_program.specs.Faults.Causes.{IsOutputIndex, PrintsAt, printed_at as printed};
ghost use Rattle.cairo_model.specs.Limits.{most_cells};
ghost use Rattle.row_checker.specs.Working.Outputs.{BothAre};
ghost use Rattle.cairo_model.specs.Refusals.FirstFailing.{IsFirstFailing};

use cairo_model::{Cert, Checked, felt_below, felt_of, is_certificate};
use goldi_field::Felt;
use std::alloc::{AllocError, Global};

/// The cells of a task's header.
const HEADER: u32 = 9;

/// The numbers that the tasks print together.
pub(crate) fn batch_numbers(alloc: Global, tasks: &[Checked]) -> Result<Vec<Felt>, AllocError>
    requires { length tasks.now < 2 ^ 32 }
    ensures { IfOk result (λ v. map (λ f. f.number) v.items ≡ batch_output (facts_of tasks.now)) }
{
    let mut numbers = Vec::new(alloc);
    numbers.push(felt_of(tasks.len() as u32))?;
    for task in tasks {
        put_task(&mut numbers, task)?;
    }
    Ok(numbers)
}

// A task's header and outputs.
fn put_task(numbers: &mut Vec<Felt>, task: &Checked) -> Result<(), AllocError>
    ensures { IfOk result (λ _. map (λ f. f.number) numbers.new.items ≡ map (λ f. f.number) numbers.old.items ++ task_output task.now.fact) }
{
    few_outputs(task);
    let fact = task.fact();
    let outputs = fact.outputs.as_slice();
    numbers.push(felt_of(HEADER + outputs.len() as u32))?;
    put_words(numbers, &fact.program.words)?;
    numbers.extend_from_slice(outputs)?;
    Ok(())
}

fn put_words(numbers: &mut Vec<Felt>, words: &[u32]) -> Result<(), AllocError>
    ensures { IfOk result (λ _. map (λ f. f.number) numbers.new.items ≡ map (λ f. f.number) numbers.old.items ++ words.now) }
{
    for word in words {
        numbers.push(felt_of(*word))?;
    }
    Ok(())
}

// For the proof alone: the outputs fit into a segment.
fn few_outputs(task: &Checked)
    ensures { length task.now.fact.outputs ≤ most_cells }
{
    let _run = task.states();
}

/// The least index at which the certificate doesn't print the number that is wanted, up to the longer end.
pub(crate) fn other_output(cert: &Cert, wanted: &[Felt]) -> Option<u64>
    ensures none { IfNone result ((k : ℕ) → IsOutputIndex cert.now (map (λ f. f.number) wanted.now) k → PrintsAt cert.now (map (λ f. f.number) wanted.now) k) }
    ensures some { IfSome result (IsFirstFailing (IsOutputIndex cert.now (map (λ f. f.number) wanted.now)) (PrintsAt cert.now (map (λ f. f.number) wanted.now))) }
    ensures few { IfSome result (λ i. i ≤ length cert.now.cells) }
{
    is_certificate(cert);
    let printed = cert
        .output
        .stop
        .value()
        .saturating_sub(cert.output.start.value());
    for index in 0..printed.max(wanted.len() as u64) {
        if !prints(printed_at(cert, index), wanted_at(wanted, index)) {
            return Some(index);
        }
    }
    None
}

fn prints(printed: Option<Felt>, wanted: Option<Felt>) -> bool
    ensures { IsTrue result ↔ BothAre (option_map (λ f. f.number) printed) (option_map (λ f. f.number) wanted) }
{
    match (printed, wanted) {
        (Some(one), Some(other)) => one == other,
        _ => false,
    }
}

/// The number at an index of the output span.
pub(crate) fn printed_at(cert: &Cert, index: u64) -> Option<Felt>
    ensures { option_map (λ f. f.number) result ≡ printed cert.now index }
{
    let start = cert.output.start.value();
    if index < cert.output.stop.value().saturating_sub(start) {
        cert.cells.get(felt_below(start + index))
    } else {
        None
    }
}

/// The number at an index of a list.
pub(crate) fn wanted_at(wanted: &[Felt], index: u64) -> Option<Felt>
    ensures { option_map (λ f. f.number) result ≡ slice_get (map (λ f. f.number) wanted.now) index }
{
    wanted.get(index as usize).copied()
}
