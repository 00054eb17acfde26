ghost use Rattle.casm_text.specs.Lines.{line_size, statement_size};
ghost use Rattle.casm_text.specs.Refusals.{IsFirstAsmCause};
ghost use Rattle.casm_text.specs.Tokens.{lines_of};
ghost use Rattle.casm_text.specs.Words.{aim_second, operand_second, source_second, statement_numbers};
ghost use Rattle.casm_text.specs.Working.Assembling.{kept_setting, known_lines, labels_good, names_set, offset_in, setting_with, KeepsLabels, Surveys};
ghost use Rattle.casm_text.specs.Working.Views.{aim_view, line_view, operand_view, source_view, statement_view};
ghost use Rattle.std.specs.Prelude.{ℕ, ◌≡◌, ◌≤◌, ◌<◌, ◌^◌, Err, IfOk, List, OnOk, length};

use crate::lines::{first_line, known_line, line_number, line_of};
use crate::refusal::AsmRefusal;
use crate::syntax::{Aim, Line, Operand, Source, Statement};
use cairo_model::{End, felt_below};
use goldi_field::Felt;
use std::alloc::{AllocError, Global};
use std::collections::BTreeMap;

/// Where a label is set first: the index of the line, and the label's offset in words.
#[derive(Clone, Copy, Drop)]
pub(crate) struct Place {
    pub line: u64,
    pub offset: Felt,
}

/// Where the labels of a text stand, by their names.
pub(crate) type Labels<'a> = BTreeMap<&'a [u8], Place>;

/// Where the labels of a text stand, if each of its lines is one.
pub(crate) fn labels_in<'a>(alloc: Global, text: &'a str) -> Result<Labels<'a>, End<AsmRefusal>>
    requires { length text.now < 2 ^ 32 }
    ensures surveyed { IfOk result (λ labels. Surveys text.now labels) }
    ensures refused { (r : AsmRefusal) → result ≡ Err (End.Refused r) → IsFirstAsmCause text.now r }
{
    let mut labels = BTreeMap::new(alloc);
    let mut left = Some(text);
    let mut index: u64 = 0;
    let mut at: u64 = 0;
    while let Some(rest) = left {
        let (bytes, after) = first_line(rest);
        let Some(line) = line_of(alloc, bytes)? else {
            return Err(End::Refused(AsmRefusal::Syntax(line_number(index))));
        };
        keep_label(&mut labels, line, index, felt_below(at))?;
        at += line_words(line);
        index += 1;
        left = after;
    }
    Ok(labels)
}

// Keeps where the line stands if it sets a label that no line before it sets.
fn keep_label<'a>(
    labels: &mut Labels<'a>,
    line: Line<'a>,
    index: u64,
    at: Felt,
) -> Result<(), AllocError>
    ensures { OnOk result ((name : List ℕ) → kept_setting labels.new name ≡ setting_with (kept_setting labels.old name) index at.number (line_view line.entry) name) }
{
    if let Line::Label(name) = line {
        if !labels.contains_key(&name) {
            labels.insert(
                name,
                Place {
                    line: index,
                    offset: at,
                },
            )?;
        }
    }
    Ok(())
}

/// Refuses a text with a line that breaks the rule of labels.
pub(crate) fn check_labels<'a>(
    alloc: Global,
    text: &'a str,
    labels: &Labels<'a>,
) -> Result<(), End<AsmRefusal>>
    requires short { length text.now < 2 ^ 32 }
    requires surveyed { Surveys text.now labels.now }
    ensures kept { OnOk result (KeepsLabels (known_lines (lines_of text.now))) }
    ensures refused { (r : AsmRefusal) → result ≡ Err (End.Refused r) → IsFirstAsmCause text.now r }
{
    let mut left = Some(text);
    let mut index: u64 = 0;
    while let Some(rest) = left {
        let (bytes, after) = first_line(rest);
        let line = known_line(alloc, bytes)?;
        if !has_good_labels(labels, line, index) {
            return Err(End::Refused(AsmRefusal::Label(line_number(index))));
        }
        index += 1;
        left = after;
    }
    Ok(())
}

fn has_good_labels<'a>(labels: &Labels<'a>, line: Line<'a>, index: u64) -> bool
    ensures { result ≡ labels_good (kept_setting labels.now) index (line_view line.entry) }
{
    match line {
        Line::Empty => true,
        Line::Label(name) => match labels.get(&name) {
            Some(place) => place.line == index,
            None => true,
        },
        Line::Statement(statement) => has_set_label(labels, statement),
    }
}

// Whether the label that the statement names, if any, is set.
fn has_set_label<'a>(labels: &Labels<'a>, statement: Statement<'a>) -> bool
    ensures { result ≡ names_set (kept_setting labels.now) (statement_numbers (statement_view statement.entry)) }
{
    match statement {
        Statement::Jump(aim, _) => is_set(labels, aim),
        Statement::JumpIf(aim, _, _) => is_set(labels, aim),
        Statement::Call(aim) => is_set(labels, aim),
        _ => true,
    }
}

fn is_set<'a>(labels: &Labels<'a>, aim: Aim<'a>) -> bool
    ensures { result ≡ names_set (kept_setting labels.now) (aim_second (aim_view aim.entry)) }
{
    match aim {
        Aim::By(_) => true,
        Aim::Label(name) => labels.contains_key(&name),
    }
}

/// The offset of a label in words, 0 where no line sets it.
pub(crate) fn offset_of<'a>(labels: &Labels<'a>, name: &'a [u8]) -> Felt
    ensures { result.number ≡ offset_in (kept_setting labels.now name.now) }
{
    match labels.get(&name) {
        Some(place) => place.offset,
        None => Felt::ZERO,
    }
}

// How many words a line gives.
fn line_words(line: Line<'_>) -> u64
    ensures size { result ≡ line_size (line_view line.entry) }
    ensures few { result ≤ 2 }
{
    match line {
        Line::Empty => 0,
        Line::Label(_) => 0,
        Line::Statement(statement) => statement_words(statement),
    }
}

fn statement_words(statement: Statement<'_>) -> u64
    ensures size { result ≡ statement_size (statement_view statement.entry) }
    ensures few { result ≤ 2 }
{
    match statement {
        Statement::Assert(_, source, _) => 1 + source_numbers(source),
        Statement::Jump(aim, _) => 1 + aim_numbers(aim),
        Statement::JumpAbs(operand, _) => 1 + operand_numbers(operand),
        Statement::JumpIf(aim, _, _) => 1 + aim_numbers(aim),
        Statement::Call(aim) => 1 + aim_numbers(aim),
        Statement::CallAbs(operand) => 1 + operand_numbers(operand),
        Statement::Ret => 1,
        Statement::AddAp(operand) => 1 + operand_numbers(operand),
        Statement::Word(_) => 1,
    }
}

fn source_numbers(source: Source<'_>) -> u64
    ensures count { result ≡ length (source_second (source_view source.entry)) }
    ensures few { result ≤ 1 }
{
    match source {
        Source::Copy(operand) => operand_numbers(operand),
        Source::Double(_, _) => 0,
        Source::Sum(_, operand) => operand_numbers(operand),
        Source::Product(_, operand) => operand_numbers(operand),
    }
}

fn aim_numbers(aim: Aim<'_>) -> u64
    ensures count { result ≡ length (aim_second (aim_view aim.entry)) }
    ensures few { result ≤ 1 }
{
    match aim {
        Aim::By(operand) => operand_numbers(operand),
        Aim::Label(_) => 1,
    }
}

fn operand_numbers(operand: Operand<'_>) -> u64
    ensures count { result ≡ length (operand_second (operand_view operand.entry)) }
    ensures few { result ≤ 1 }
{
    match operand {
        Operand::Cell(_) => 0,
        Operand::Numeral(_) => 1,
    }
}
