ghost use Rattle.std.specs.Prelude.{◌≡◌, IfOk, Some, map};
ghost use Rattle.cairo_model.specs.Pie.Acceptance.{AcceptedWith};
ghost use Rattle.cairo_model.specs.Pie.Facts.{number_or_zero};
ghost use Rattle.cairo_model.specs.Refusals.Verdicts.{admitted};
ghost use Rattle.cairo_model.specs.Views.Machine.{datum};
ghost use Rattle.cairo_model.specs.Views.Pie.{memory_cell};
ghost use Rattle.shared_prover_cli.specs.Answers.List.{IsCodeOf, IsListedFor, ListAnswer};
ghost use Rattle.shared_prover_cli.specs.Working.Replies.{reply_view};

use crate::reply::{Outcome, Reply};
use crate::texts::refusal_line;
use cairo_model::segments::PROGRAM;
use cairo_model::{Checked, End, PieCell, Value};
use casm_text::{Code, listing};
use pie_replay::admit;
use std::alloc::{AllocError, Global};

/// The listing of the code of the PIE whose file the input is, where it is accepted alone.
pub fn list_answer(alloc: Global, input: &[u8]) -> Result<Reply, AllocError>
    ensures { IfOk result (λ reply. ListAnswer input.now (reply_view reply)) }
{
    match admit(alloc, input) {
        Ok(checked) => Ok(Reply {
            outcome: Outcome::Done,
            text: listing_bytes(alloc, &checked)?,
        }),
        Err(End::Refused(refusal)) => Ok(Reply {
            outcome: Outcome::Refused,
            text: refusal_line(alloc, refusal)?,
        }),
        Err(End::OutOfMemory) => Err(AllocError),
    }
}

fn listing_bytes(alloc: Global, checked: &Checked) -> Result<Vec<u8>, AllocError>
    requires { AcceptedWith checked.now.pie checked.now.fact checked.now.states }
    ensures { IfOk result (λ bytes. IsListedFor (admitted checked.now) bytes.items) }
{
    let code = code_of(alloc, checked)?;
    Ok(listing(alloc, &code)?.into_bytes())
}

// The program segment is full and stands first, so its words are those of the first cells.
fn code_of(alloc: Global, checked: &Checked) -> Result<Code, AllocError>
    requires { AcceptedWith checked.now.pie checked.now.fact checked.now.states }
    ensures words { IfOk result (λ code. IsCodeOf checked.now.pie code.words.items) }
    ensures main { IfOk result (λ code. code.main ≡ checked.now.pie.main) }
{
    let pie = checked.pie();
    let size = pie.sizes[PROGRAM as usize] as usize;
    let words = numbers_of(alloc, &pie.cells[..size])?;
    Ok(Code {
        words,
        main: pie.main,
    })
}

// The numbers of these cells, 0 for a place.
fn numbers_of(alloc: Global, cells: &[PieCell]) -> Result<Vec<u64>, AllocError>
    ensures { IfOk result (λ numbers. numbers.items ≡ map (λ c. number_or_zero (Some c.value)) (map memory_cell cells.now)) }
{
    let mut numbers = Vec::new(alloc);
    for cell in cells {
        numbers.push(number_of(cell.value))?;
    }
    Ok(numbers)
}

fn number_of(value: Value) -> u64
    ensures { result ≡ number_or_zero (Some (datum value)) }
{
    match value {
        Value::Number(number) => number.value(),
        Value::At(_) => 0,
    }
}
