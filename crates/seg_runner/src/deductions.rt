//! The values that the rules give.

ghost use Rattle.std.specs.Prelude.{◌≡◌, option_map};
ghost use Rattle.cairo_model.specs.Views.Machine.{datum, registers};
ghost use Rattle.cairo_word.specs.Instructions.{fields};
ghost use Rattle.seg_runner.specs.Deductions.{Quotient, quotient_of, return_address as return_of, caller_frame as caller_of, deduced_op0 as op0_of, deduced_op1 as op1_of};

use cairo_model::{State, Value, sub};
use cairo_word::Instruction;
use goldi_field::Felt;
use pie_replay::following_pc;

/// op0 of a call is the address after it.
pub(crate) fn return_address(instruction: &Instruction, state: &State) -> Option<Value>
    ensures { option_map datum result ≡ return_of (fields instruction.now) (registers state.now) }
{
    if instruction.opcode == 1 {
        following_pc(instruction, state)
    } else {
        None
    }
}

/// dst of a call is the present frame pointer.
pub(crate) fn caller_frame(instruction: &Instruction, state: &State) -> Option<Value>
    ensures { option_map datum result ≡ caller_of (fields instruction.now) (registers state.now) }
{
    if instruction.opcode == 1 {
        Some(state.fp)
    } else {
        None
    }
}

/// op0 of an assertion, by dst and op1.
pub(crate) fn deduced_op0(instruction: &Instruction, dst: Value, op1: Value) -> Option<Value>
    ensures { option_map datum result ≡ op0_of (fields instruction.now) (datum dst) (datum op1) }
{
    match instruction.res_logic {
        1 => sub(dst, op1),
        2 => quotient(dst, op1),
        _ => None,
    }
}

/// op1 of an assertion, by dst and op0.
pub(crate) fn deduced_op1(instruction: &Instruction, dst: Value, op0: Value) -> Option<Value>
    ensures { option_map datum result ≡ op1_of (fields instruction.now) (datum dst) (datum op0) }
{
    match instruction.res_logic {
        0 => Some(dst),
        1 => sub(dst, op0),
        _ => quotient(dst, op0),
    }
}

// The quotient of two values, which both have to be numbers.
fn quotient(a: Value, b: Value) -> Option<Value>
    ensures { option_map datum result ≡ Quotient (datum a) (datum b) }
{
    match (a, b) {
        (Value::Number(a), Value::Number(b)) => Some(Value::Number(divided(a, b)?)),
        _ => None,
    }
}

// The number whose product with b is a, where b isn't 0.
fn divided(a: Felt, b: Felt) -> Option<Felt>
    ensures { option_map (λ q. q.number) result ≡ quotient_of a.number b.number }
{
    match b.inv() {
        Some(inverse) => Some(a.mul(inverse)),
        None => None,
    }
}
