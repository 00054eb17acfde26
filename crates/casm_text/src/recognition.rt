ghost use Rattle.casm_text.specs.Words.{statement_fields};
ghost use Rattle.casm_text.specs.Working.Rendering.{dst_cell, is_word_of, op0_cell, op1_operand, right_side, statement_for as statement_for_fields, is_given as is_given_of, listed_at};
ghost use Rattle.casm_text.specs.Working.PlainViews.{listed_cell, one_number, listed_operand, listed_source, listed_statement};
ghost use Rattle.cairo_word.specs.Instructions.{fields};
ghost use Rattle.goldi_field.specs.Numbers.{IsFelt};
ghost use Rattle.std.specs.List.{AllByRecursion};
ghost use Rattle.std.specs.Prelude.{◌≡◌, bytes_eq, get_or, length, take};

use crate::instructions::{instruction, number};
use crate::plain::{PlainCell, PlainOperand, PlainSource, PlainStatement};
use cairo_model::felt_below;
use cairo_word::{Instruction, Reg, decode, encode};
use goldi_field::Felt;

/// The statement that a listing has for a word and the words after it.
pub(crate) fn statement_at(word: u64, words: &[u64]) -> PlainStatement
    requires word { IsFelt word }
    requires words { AllByRecursion IsFelt words.now }
    ensures { listed_statement result ≡ listed_at word words.now }
{
    if let Ok(instruction) = decode(word) {
        let statement = statement_for(&instruction, words);
        if is_given(&statement, word, words) {
            return statement;
        }
    }
    PlainStatement::Word(felt_below(word))
}

// Whether the statement gives the word and then, if it has a number, that number.
fn is_given(statement: &PlainStatement, word: u64, words: &[u64]) -> bool
    ensures { result ≡ is_given_of (listed_statement statement.now) word words.now }
{
    has_word(statement, word) && begins_with(words, number(statement))
}

// Whether the statement has an instruction, and the word is its.
fn has_word(statement: &PlainStatement, word: u64) -> bool
    ensures { result ≡ is_word_of (statement_fields (listed_statement statement.now)) word }
{
    match instruction(statement) {
        Some(instruction) => encode(&instruction) == word,
        None => false,
    }
}

fn begins_with(words: &[u64], number: Option<Felt>) -> bool
    ensures { result ≡ bytes_eq (take (length (one_number number)) words.now) (one_number number) }
{
    match number {
        Some(number) => !words.is_empty() && words[0] == number.value(),
        None => true,
    }
}

// Of the statements other than `word`, no other can give a word with this instruction and then these words.
fn statement_for(i: &Instruction, words: &[u64]) -> PlainStatement
    requires { AllByRecursion IsFelt words.now }
    ensures { listed_statement result ≡ statement_for_fields (fields i.now) words.now }
{
    let step = i.ap_update == 2;
    let op1 = op1(i, words);
    match (i.opcode, i.pc_update) {
        (4, _) => PlainStatement::Assert(dst(i), source(i, words), step),
        (2, _) => PlainStatement::Ret,
        (1, 1) => PlainStatement::CallAbs(op1),
        (1, _) => PlainStatement::Call(op1),
        (_, 4) => PlainStatement::JumpIf(op1, dst(i), step),
        (_, 1) => PlainStatement::JumpAbs(op1, step),
        (_, 2) => PlainStatement::Jump(op1, step),
        _ => PlainStatement::AddAp(op1),
    }
}

fn dst(i: &Instruction) -> PlainCell
    ensures { listed_cell result ≡ dst_cell (fields i.now) }
{
    PlainCell {
        register: i.dst_reg,
        offset: i.off_dst,
    }
}

fn op0(i: &Instruction) -> PlainCell
    ensures { listed_cell result ≡ op0_cell (fields i.now) }
{
    PlainCell {
        register: i.op0_reg,
        offset: i.off_op0,
    }
}

fn op1(i: &Instruction, words: &[u64]) -> PlainOperand
    requires { AllByRecursion IsFelt words.now }
    ensures { listed_operand result ≡ op1_operand (fields i.now) words.now }
{
    match i.op1_src {
        2 => PlainOperand::Cell(PlainCell {
            register: Reg::Fp,
            offset: i.off_op1,
        }),
        4 => PlainOperand::Cell(PlainCell {
            register: Reg::Ap,
            offset: i.off_op1,
        }),
        _ => PlainOperand::Number(first(words)),
    }
}

fn source(i: &Instruction, words: &[u64]) -> PlainSource
    requires { AllByRecursion IsFelt words.now }
    ensures { listed_source result ≡ right_side (fields i.now) words.now }
{
    if i.op1_src == 0 {
        return PlainSource::Double(op0(i), i.off_op1);
    }
    match i.res_logic {
        1 => PlainSource::Sum(op0(i), op1(i, words)),
        2 => PlainSource::Product(op0(i), op1(i, words)),
        _ => PlainSource::Copy(op1(i, words)),
    }
}

fn first(words: &[u64]) -> Felt
    requires { AllByRecursion IsFelt words.now }
    ensures { result.number ≡ get_or words.now 0 0 }
{
    if words.is_empty() {
        Felt::ZERO
    } else {
        felt_below(words[0])
    }
}
