ghost use Rattle.casm_text.specs.Statements.{assert, jump_if, by as by_operand, register_name as register_name_of, offset_then, cell_then, operand_then, source_then, step_pieces, text_in, statement_text};
ghost use Rattle.casm_text.specs.Working.PlainViews.{listed_cell, listed_operand, listed_source, listed_statement};
ghost use Rattle.casm_text.specs.Working.Rendering.{plain_offset};
ghost use Rattle.casm_text.specs.Working.Writing.{Puts, joined_then};
ghost use Rattle.std.specs.Prelude.{◌≡◌, ◌++◌, OnOk, decimal, string_bytes};

use crate::plain::{PlainCell, PlainOperand, PlainSource, PlainStatement};
use cairo_word::Reg;
use std::alloc::{AllocError, Global};

/// Appends a statement, spelled as in a listing.
pub(crate) fn put_statement(
    alloc: Global,
    text: &mut String,
    statement: &PlainStatement,
) -> Result<(), AllocError>
    ensures { OnOk result (string_bytes text.new ≡ string_bytes text.old ++ statement_text (listed_statement statement.now)) }
{
    match *statement {
        PlainStatement::Assert(dst, source, step) => put_assert(alloc, text, dst, source, step),
        PlainStatement::Jump(by, step) => put_with(alloc, text, "jmp rel ", by, step),
        PlainStatement::JumpAbs(to, step) => put_with(alloc, text, "jmp abs ", to, step),
        PlainStatement::JumpIf(by, dst, step) => put_jump_if(alloc, text, by, dst, step),
        PlainStatement::Call(by) => put_with(alloc, text, "call rel ", by, false),
        PlainStatement::CallAbs(to) => put_with(alloc, text, "call abs ", to, false),
        PlainStatement::Ret => text.push_str("ret"),
        PlainStatement::AddAp(by) => put_with(alloc, text, "ap += ", by, false),
        PlainStatement::Word(n) => {
            text.push_str("word ")?;
            put_decimal(alloc, text, n.value())
        }
    }
}

fn put_assert(
    alloc: Global,
    text: &mut String,
    dst: PlainCell,
    source: PlainSource,
    step: bool,
) -> Result<(), AllocError>
    ensures { OnOk result (string_bytes text.new ≡ string_bytes text.old ++ statement_text (assert (listed_cell dst) (listed_source source) step)) }
{
    put_cell(alloc, text, dst)?;
    text.push_str(" = ")?;
    put_source(alloc, text, source)?;
    put_step(text, step)
}

fn put_jump_if(
    alloc: Global,
    text: &mut String,
    by: PlainOperand,
    dst: PlainCell,
    step: bool,
) -> Result<(), AllocError>
    ensures { OnOk result (string_bytes text.new ≡ string_bytes text.old ++ statement_text (jump_if (by_operand (listed_operand by)) (listed_cell dst) step)) }
{
    text.push_str("jmp rel ")?;
    put_operand(alloc, text, by)?;
    text.push_str(" if ")?;
    put_cell(alloc, text, dst)?;
    text.push_str(" != 0")?;
    put_step(text, step)
}

fn put_with(
    alloc: Global,
    text: &mut String,
    words: &str,
    operand: PlainOperand,
    step: bool,
) -> Result<(), AllocError>
    ensures { OnOk result (string_bytes text.new ≡ string_bytes text.old ++ (words.now ++ text_in (operand_then (listed_operand operand) (step_pieces step)))) }
{
    text.push_str(words)?;
    put_operand(alloc, text, operand)?;
    put_step(text, step)
}

fn put_step(text: &mut String, step: bool) -> Result<(), AllocError>
    ensures { OnOk result (string_bytes text.new ≡ string_bytes text.old ++ text_in (step_pieces step)) }
{
    if step {
        text.push_str(", ap++")?;
    }
    Ok(())
}

fn put_source(alloc: Global, text: &mut String, source: PlainSource) -> Result<(), AllocError>
    ensures { OnOk result (Puts (string_bytes text.old) (string_bytes text.new) (source_then (listed_source source))) }
{
    match source {
        PlainSource::Copy(x) => put_operand(alloc, text, x),
        PlainSource::Double(cell, offset) => {
            text.push_str("[")?;
            put_cell(alloc, text, cell)?;
            put_offset(alloc, text, offset)?;
            text.push_str("]")?;
            Ok(())
        }
        PlainSource::Sum(cell, x) => put_pair(alloc, text, cell, "+", x),
        PlainSource::Product(cell, x) => put_pair(alloc, text, cell, "*", x),
    }
}

fn put_pair(
    alloc: Global,
    text: &mut String,
    cell: PlainCell,
    sign: &str,
    operand: PlainOperand,
) -> Result<(), AllocError>
    ensures { OnOk result (Puts (string_bytes text.old) (string_bytes text.new) (joined_then (listed_cell cell) sign.now (listed_operand operand))) }
{
    put_cell(alloc, text, cell)?;
    text.push_str(" ")?;
    text.push_str(sign)?;
    text.push_str(" ")?;
    put_operand(alloc, text, operand)
}

fn put_operand(alloc: Global, text: &mut String, operand: PlainOperand) -> Result<(), AllocError>
    ensures { OnOk result (Puts (string_bytes text.old) (string_bytes text.new) (operand_then (listed_operand operand))) }
{
    match operand {
        PlainOperand::Cell(cell) => put_cell(alloc, text, cell),
        PlainOperand::Number(n) => put_decimal(alloc, text, n.value()),
    }
}

fn put_cell(alloc: Global, text: &mut String, cell: PlainCell) -> Result<(), AllocError>
    ensures { OnOk result (Puts (string_bytes text.old) (string_bytes text.new) (cell_then (listed_cell cell))) }
{
    text.push_str("[")?;
    text.push_str(register_name(cell.register))?;
    put_offset(alloc, text, cell.offset)?;
    text.push_str("]")?;
    Ok(())
}

fn register_name(register: Reg) -> &'static str
    ensures { result.now ≡ register_name_of register }
{
    match register {
        Reg::Ap => "ap",
        Reg::Fp => "fp",
    }
}

fn put_offset(alloc: Global, text: &mut String, offset: i16) -> Result<(), AllocError>
    ensures { OnOk result (Puts (string_bytes text.old) (string_bytes text.new) (offset_then (plain_offset offset))) }
{
    if offset == 0 {
        return Ok(());
    }
    text.push_str(if offset < 0 { "-" } else { "+" })?;
    put_decimal(alloc, text, u64::from(offset.unsigned_abs()))
}

fn put_decimal(alloc: Global, text: &mut String, number: u64) -> Result<(), AllocError>
    ensures { OnOk result (string_bytes text.new ≡ string_bytes text.old ++ decimal number) }
{
    let digits = number.to_string(alloc)?;
    text.push_str(digits.as_str())
}
