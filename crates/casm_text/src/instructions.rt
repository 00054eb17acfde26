ghost use Rattle.casm_text.specs.Statements.{assert};
ghost use Rattle.casm_text.specs.Words.{operand_source, operand_offset, operand_second, source_second, register_source as register_source_of, statement_fields, statement_numbers, step_update, numbers_at, calling, unnamed, with_op1, with_step};
ghost use Rattle.casm_text.specs.Listings.{nowhere};
ghost use Rattle.casm_text.specs.Working.PlainViews.{listed_cell, fields_from, one_number, listed_operand, listed_source, listed_statement};
ghost use Rattle.cairo_word.specs.Instructions.{fields};
ghost use Rattle.cairo_word.specs.Word.{is_choice, mixture_fault_of};
ghost use Rattle.std.specs.Prelude.{◌≡◌, ◌<◌, Some, None, true, option_map};

use crate::op1::Op1;
use crate::plain::{PlainCell, PlainOperand, PlainSource, PlainStatement};
use cairo_word::{Instruction, Reg};
use goldi_field::Felt;

// A cell that a statement doesn't name.
const UNNAMED: PlainCell = PlainCell {
    register: Reg::Fp,
    offset: -1,
};

// The two cells that a call writes, as its own frame sees them, and the return address as `ret` reads it.
const OLD_FP: PlainCell = PlainCell {
    register: Reg::Fp,
    offset: -2,
};

const RETURN_ADDRESS: Op1 = Op1 {
    source: 2,
    offset: -1,
};

/// The instruction of a statement; `word N` has none.
#[tactic(auto, using(crate::proofs::PlainValues::plain_offset_value))]
pub(crate) fn instruction(statement: &PlainStatement) -> Option<Instruction>
    ensures { option_map fields result ≡ statement_fields (listed_statement statement.now) }
{
    match *statement {
        PlainStatement::Assert(dst, source, step) => Some(assertion(dst, source, step)),
        PlainStatement::Jump(by, step) => Some(jump(by, 2, step)),
        PlainStatement::JumpAbs(to, step) => Some(jump(to, 1, step)),
        PlainStatement::JumpIf(by, dst, step) => Some(built(
            dst,
            UNNAMED,
            op1_of(by),
            0,
            4,
            ap_update(step),
            0,
        )),
        PlainStatement::Call(by) => Some(call(by, 2)),
        PlainStatement::CallAbs(to) => Some(call(to, 1)),
        PlainStatement::Ret => Some(built(OLD_FP, UNNAMED, RETURN_ADDRESS, 0, 1, 0, 2)),
        PlainStatement::AddAp(by) => Some(built(UNNAMED, UNNAMED, op1_of(by), 0, 0, 1, 0)),
        PlainStatement::Word(_) => None,
    }
}

/// The number that a statement gives: that of `word N`, else the one after its instruction, if any.
#[tactic(auto, using(crate::proofs::Decimals::decimal_value))]
pub(crate) fn number(statement: &PlainStatement) -> Option<Felt>
    ensures { numbers_at nowhere 0 (statement_numbers (listed_statement statement.now)) ≡ one_number result }
{
    match *statement {
        PlainStatement::Assert(_, source, _) => source_number(source),
        PlainStatement::Jump(by, _) => operand_number(by),
        PlainStatement::JumpAbs(to, _) => operand_number(to),
        PlainStatement::JumpIf(by, _, _) => operand_number(by),
        PlainStatement::Call(by) => operand_number(by),
        PlainStatement::CallAbs(to) => operand_number(to),
        PlainStatement::Ret => None,
        PlainStatement::AddAp(by) => operand_number(by),
        PlainStatement::Word(n) => Some(n),
    }
}

#[tactic(auto, using(crate::proofs::PlainValues::plain_offset_value))]
fn assertion(dst: PlainCell, source: PlainSource, step: bool) -> Instruction
    ensures { Some (fields result) ≡ statement_fields (assert (listed_cell dst) (listed_source source) step) }
{
    let step = ap_update(step);
    match source {
        PlainSource::Copy(x) => built(dst, UNNAMED, op1_of(x), 0, 0, step, 4),
        PlainSource::Double(cell, offset) => {
            built(dst, cell, Op1 { source: 0, offset }, 0, 0, step, 4)
        }
        PlainSource::Sum(cell, x) => built(dst, cell, op1_of(x), 1, 0, step, 4),
        PlainSource::Product(cell, x) => built(dst, cell, op1_of(x), 2, 0, step, 4),
    }
}

fn jump(aim: PlainOperand, pc_update: u8, step: bool) -> Instruction
    requires choice { is_choice pc_update ≡ true }
    requires not_conditional { pc_update < 4 }
    ensures { fields result ≡ with_step step (with_op1 (listed_operand aim) (record unnamed { pc_update = pc_update })) }
{
    built(
        UNNAMED,
        UNNAMED,
        op1_of(aim),
        0,
        pc_update,
        ap_update(step),
        0,
    )
}

fn call(aim: PlainOperand, pc_update: u8) -> Instruction
    requires choice { is_choice pc_update ≡ true }
    requires not_conditional { pc_update < 4 }
    ensures { fields result ≡ with_op1 (listed_operand aim) (record calling { pc_update = pc_update }) }
{
    let old_fp = PlainCell {
        register: Reg::Ap,
        offset: 0,
    };
    let return_address = PlainCell {
        register: Reg::Ap,
        offset: 1,
    };
    built(old_fp, return_address, op1_of(aim), 0, pc_update, 0, 1)
}

fn built(
    dst: PlainCell,
    op0: PlainCell,
    op1: Op1,
    res_logic: u8,
    pc_update: u8,
    ap_update: u8,
    opcode: u8,
) -> Instruction
    requires narrow { (res_logic < 4) × (ap_update < 4) }
    requires sound { mixture_fault_of op1.source res_logic pc_update ap_update opcode ≡ None }
    ensures { fields result ≡ fields_from dst op0 op1 res_logic pc_update ap_update opcode }
{
    Instruction {
        off_dst: dst.offset,
        off_op0: op0.offset,
        off_op1: op1.offset,
        dst_reg: dst.register,
        op0_reg: op0.register,
        op1_src: op1.source,
        res_logic,
        pc_update,
        ap_update,
        opcode,
    }
}

fn ap_update(step: bool) -> u8
    ensures { result ≡ step_update step }
{
    if step { 2 } else { 0 }
}

#[tactic(auto, using(crate::proofs::PlainValues::plain_offset_value))]
fn op1_of(operand: PlainOperand) -> Op1
    ensures source { result.source ≡ operand_source (listed_operand operand) }
    ensures offset { result.offset ≡ operand_offset (listed_operand operand) }
{
    match operand {
        PlainOperand::Cell(cell) => Op1 {
            source: register_source(cell.register),
            offset: cell.offset,
        },
        PlainOperand::Number(_) => Op1 {
            source: 1,
            offset: 1,
        },
    }
}

fn register_source(register: Reg) -> u8
    ensures value { result ≡ register_source_of register }
    ensures choice { is_choice result ≡ true }
{
    match register {
        Reg::Ap => 4,
        Reg::Fp => 2,
    }
}

fn source_number(source: PlainSource) -> Option<Felt>
    ensures { numbers_at nowhere 0 (source_second (listed_source source)) ≡ one_number result }
{
    match source {
        PlainSource::Copy(x) => operand_number(x),
        PlainSource::Double(_, _) => None,
        PlainSource::Sum(_, x) => operand_number(x),
        PlainSource::Product(_, x) => operand_number(x),
    }
}

#[tactic(auto, using(crate::proofs::Decimals::decimal_value))]
fn operand_number(operand: PlainOperand) -> Option<Felt>
    ensures { numbers_at nowhere 0 (operand_second (listed_operand operand)) ≡ one_number result }
{
    match operand {
        PlainOperand::Cell(_) => None,
        PlainOperand::Number(n) => Some(n),
    }
}
