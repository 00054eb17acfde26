ghost use Rattle.casm_text.specs.Statements.{aim_spelled, is_spelled, source_spelled};
ghost use Rattle.casm_text.specs.Words.{aim_fits, source_fits, statement_fits};
ghost use Rattle.casm_text.specs.Working.Assembling.{offset_in, kept_setting};
ghost use Rattle.casm_text.specs.Working.PlainViews.{listed_operand, listed_source, listed_statement};
ghost use Rattle.casm_text.specs.Working.Resolving.{resolved_aim, resolved_source, resolved_statement, where_fits};
ghost use Rattle.casm_text.specs.Working.Views.{aim_view, source_view, statement_view};
ghost use Rattle.std.specs.Prelude.{◌≡◌, option_map, true};

use crate::labels::{Labels, offset_of};
use crate::plain::{PlainOperand, PlainSource, PlainStatement};
use crate::syntax::{Aim, Source, Statement};
use crate::values::{cell, numeral, offset, operand};
use goldi_field::Felt;

/// The statement at this offset with its offsets and numbers known, a label by its distance; none where one of them is
/// out of range.
pub(crate) fn resolved<'a>(
    labels: &Labels<'a>,
    at: Felt,
    statement: Statement<'a>,
) -> Option<PlainStatement>
    requires { is_spelled (statement_view statement) ≡ true }
    ensures { option_map listed_statement result ≡ where_fits (statement_fits (statement_view statement.entry)) (resolved_statement (λ name. offset_in (kept_setting labels.now name)) at.number (statement_view statement.entry)) }
{
    match statement {
        Statement::Assert(dst, right, step) => {
            let dst = cell(dst)?;
            let right = source(right)?;
            Some(PlainStatement::Assert(dst, right, step))
        }
        Statement::Jump(to, step) => {
            let by = aim(labels, at, to)?;
            Some(PlainStatement::Jump(by, step))
        }
        Statement::JumpAbs(to, step) => {
            let to = operand(to)?;
            Some(PlainStatement::JumpAbs(to, step))
        }
        Statement::JumpIf(to, dst, step) => {
            let by = aim(labels, at, to)?;
            let dst = cell(dst)?;
            Some(PlainStatement::JumpIf(by, dst, step))
        }
        Statement::Call(to) => {
            let by = aim(labels, at, to)?;
            Some(PlainStatement::Call(by))
        }
        Statement::CallAbs(to) => {
            let to = operand(to)?;
            Some(PlainStatement::CallAbs(to))
        }
        Statement::Ret => Some(PlainStatement::Ret),
        Statement::AddAp(by) => {
            let by = operand(by)?;
            Some(PlainStatement::AddAp(by))
        }
        Statement::Word(n) => {
            let n = numeral(n)?;
            Some(PlainStatement::Word(n))
        }
    }
}

fn source(source: Source<'_>) -> Option<PlainSource>
    requires { source_spelled (source_view source) ≡ true }
    ensures { option_map listed_source result ≡ where_fits (source_fits (source_view source.entry)) (resolved_source (source_view source.entry)) }
{
    match source {
        Source::Copy(x) => {
            let x = operand(x)?;
            Some(PlainSource::Copy(x))
        }
        Source::Double(c, k) => {
            let c = cell(c)?;
            let k = offset(k)?;
            Some(PlainSource::Double(c, k))
        }
        Source::Sum(c, x) => {
            let c = cell(c)?;
            let x = operand(x)?;
            Some(PlainSource::Sum(c, x))
        }
        Source::Product(c, x) => {
            let c = cell(c)?;
            let x = operand(x)?;
            Some(PlainSource::Product(c, x))
        }
    }
}

fn aim<'a>(labels: &Labels<'a>, at: Felt, aim: Aim<'a>) -> Option<PlainOperand>
    requires { aim_spelled (aim_view aim) ≡ true }
    ensures { option_map listed_operand result ≡ where_fits (aim_fits (aim_view aim.entry)) (resolved_aim (λ name. offset_in (kept_setting labels.now name)) at.number (aim_view aim.entry)) }
{
    match aim {
        Aim::By(x) => operand(x),
        Aim::Label(name) => Some(PlainOperand::Number(offset_of(labels, name).sub(at))),
    }
}
