ghost use Rattle.casm_text.specs.Lines.{main_of};
ghost use Rattle.casm_text.specs.Listings.{nowhere};
ghost use Rattle.casm_text.specs.Refusals.{Assembles, IsFirstAsmCause, most_words};
ghost use Rattle.casm_text.specs.Tokens.{lines_of};
ghost use Rattle.casm_text.specs.Words.{statement_fields};
ghost use Rattle.casm_text.specs.Working.Assembling.{Adds, KeepsLabels, LineAdds, PutsWord, Surveys, kept_setting, known_lines, line_spelled, offset_in, range_good};
ghost use Rattle.casm_text.specs.Working.PlainViews.{listed_statement};
ghost use Rattle.casm_text.specs.Working.Views.{line_view};
ghost use Rattle.std.specs.Prelude.{◌≡◌, ◌<◌, ◌≤◌, ◌^◌, Err, IfOk, OnOk, Ok, length, true};

use crate::code::Code;
use crate::instructions::{instruction, number};
use crate::labels::{Labels, check_labels, labels_in, offset_of};
use crate::lines::{first_line, known_line, line_number};
use crate::plain::PlainStatement;
use crate::refusal::AsmRefusal;
use crate::resolving::resolved;
use crate::syntax::Line;
use cairo_model::limits::MOST_CELLS;
use cairo_model::{End, felt_below};
use cairo_word::encode;
use std::alloc::{AllocError, Global};

/// The code of an assembly text (docs/ASSEMBLY.md): the words of its statements, and the offset of its label `main`, 0
/// where it has none. The text is gone over three times, and no list of its lines is kept.
pub fn assemble(alloc: Global, text: &str) -> Result<Code, End<AsmRefusal>>
    requires { length text.now < 2 ^ 32 }
    // What is taken is a text of the grammar that keeps each rule, and gives this code.
    ensures code { IfOk result (λ code. Assembles text.now code.words.items code.main) }
    // What is refused is refused for the first cause that applies, with its least line.
    ensures refused { (r : AsmRefusal) → result ≡ Err (End.Refused r) → IsFirstAsmCause text.now r }
{
    let labels = labels_in(alloc, text)?;
    check_labels(alloc, text, &labels)?;
    let words = words_in(alloc, text, &labels)?;
    let main = offset_of(&labels, b"main").value();
    match Code::new(words, main) {
        Some(code) => Ok(code),
        None => unreachable!(),
    }
}

// The words that the lines of a text give, if each keeps the rule of ranges.
fn words_in<'a>(
    alloc: Global,
    text: &'a str,
    labels: &Labels<'a>,
) -> Result<Vec<u64>, End<AsmRefusal>>
    requires short { length text.now < 2 ^ 32 }
    requires surveyed { Surveys text.now labels.now }
    requires labels_kept { KeepsLabels (known_lines (lines_of text.now)) }
    ensures words { IfOk result (λ words. Assembles text.now words.items (main_of (known_lines (lines_of text.now)))) }
    ensures refused { (r : AsmRefusal) → result ≡ Err (End.Refused r) → IsFirstAsmCause text.now r }
{
    let mut words = Vec::new(alloc);
    let mut left = Some(text);
    let mut index: u64 = 0;
    while let Some(rest) = left {
        let (bytes, after) = first_line(rest);
        let line = known_line(alloc, bytes)?;
        if !put_line(&mut words, labels, line)? {
            return Err(End::Refused(AsmRefusal::Range(line_number(index))));
        }
        index += 1;
        left = after;
    }
    Ok(words)
}

// Adds the words of a line, and says whether it keeps the rule of ranges.
fn put_line<'a>(
    words: &mut Vec<u64>,
    labels: &Labels<'a>,
    line: Line<'a>,
) -> Result<bool, AllocError>
    requires few { length words.old.items ≤ most_words }
    requires spelled { line_spelled (line_view line) ≡ true }
    ensures good { IfOk result (λ good. good ≡ range_good (length words.old.items) (line_view line.entry)) }
    ensures words { result ≡ Ok true → LineAdds (λ name. offset_in (kept_setting labels.now name)) (line_view line.entry) words.old.items words.new.items }
{
    let Line::Statement(statement) = line else {
        return Ok(true);
    };
    let at = felt_below(words.len() as u64);
    let Some(statement) = resolved(labels, at, statement) else {
        return Ok(false);
    };
    put_words(words, &statement)?;
    Ok(words.len() <= MOST_CELLS as usize)
}

// Adds the words of a statement.
fn put_words(words: &mut Vec<u64>, statement: &PlainStatement) -> Result<(), AllocError>
    ensures { OnOk result (Adds nowhere 0 (listed_statement statement.now) words.old.items words.new.items) }
{
    put_instruction(words, statement)?;
    if let Some(number) = number(statement) {
        words.push(number.value())?;
    }
    Ok(())
}

// Adds the word of a statement's instruction, if it has one.
fn put_instruction(words: &mut Vec<u64>, statement: &PlainStatement) -> Result<(), AllocError>
    ensures { OnOk result (PutsWord (statement_fields (listed_statement statement.now)) words.old.items words.new.items) }
{
    if let Some(instruction) = instruction(statement) {
        words.push(encode(&instruction))?;
    }
    Ok(())
}
