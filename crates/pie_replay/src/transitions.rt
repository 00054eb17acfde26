//! The machine's transition from the values of an instruction's cells on, which replay and a runner share.

ghost use Rattle.std.specs.Prelude.{◌≡◌, Ok, Err, MatchResult, option_map};
ghost use Rattle.cairo_model.specs.Machine.Steps.{value_arithmetic, after as after_of, moved, result_of, next_pc as next_pc_of, next_ap as next_ap_of, next_fp as next_fp_of, keeps_call as call_test, keeps_assert as assert_test};
ghost use Rattle.cairo_model.specs.Views.Machine.{registers, datum};
ghost use Rattle.cairo_word.specs.Instructions.{fields};
ghost use Rattle.pie_replay.specs.Transitions.{moved_on};

use cairo_model::{State, StepFault, Value, add, felt_of, is_zero, mul, size_felt};
use cairo_word::Instruction;
use goldi_field::Felt;

/// The state after an instruction whose cells hold these values, or the first fault from Res to Frame (docs/MACHINE.md).
#[tactic(auto, unfolding(crate::specs::Transitions::moved_on))]
pub fn next_state(
    instruction: &Instruction,
    state: &State,
    dst: Value,
    op0: Value,
    op1: Value,
) -> Result<State, StepFault>
    ensures { MatchResult result
        (λ after. moved_on (fields instruction.now) (registers state.now) (datum dst) (datum op0) (datum op1) ≡ Ok (registers after))
        (λ fault. moved_on (fields instruction.now) (registers state.now) (datum dst) (datum op0) (datum op1) ≡ Err fault) }
{
    let res = result_in(instruction, op0, op1).ok_or(StepFault::Res)?;
    let pc = next_pc(instruction, state, dst, op1, res).ok_or(StepFault::Jump)?;
    if !keeps_call(instruction, state, dst, op0) {
        return Err(StepFault::Call);
    }
    if !keeps_assert(instruction, dst, res) {
        return Err(StepFault::Assert);
    }
    let Some(ap) = next_ap(instruction, state, res) else {
        return Err(StepFault::Frame);
    };
    let Some(fp) = next_fp(instruction, state, dst) else {
        return Err(StepFault::Frame);
    };
    Ok(State { pc, ap, fp })
}

/// The result of an instruction by its operands, each in a cell: none where the sum or the product isn't defined. A
/// conditional jump has no result, and op1 stands in its place.
pub fn result_in(instruction: &Instruction, op0: Value, op1: Value) -> Option<Value>
    ensures { option_map datum result ≡ result_of value_arithmetic (fields instruction.now) (datum op0) (datum op1) }
{
    if instruction.pc_update == 4 {
        return Some(op1);
    }
    match instruction.res_logic {
        0 => Some(op1),
        1 => add(op0, op1),
        _ => mul(op0, op1),
    }
}

/// The address after the instruction, one or two cells on: none beyond the last offset of a segment.
pub fn following_pc(instruction: &Instruction, state: &State) -> Option<Value>
    ensures { option_map datum result ≡ after_of value_arithmetic (fields instruction.now) (registers state.now) }
{
    add(state.pc, number(size_felt(instruction)))
}

fn next_pc(
    instruction: &Instruction,
    state: &State,
    dst: Value,
    op1: Value,
    res: Value,
) -> Option<Value>
    ensures { option_map datum result ≡ next_pc_of value_arithmetic (fields instruction.now) (registers state.now) (datum dst) (datum op1) (datum res) }
{
    match instruction.pc_update {
        0 => following_pc(instruction, state),
        1 => Some(res),
        2 => add(state.pc, res),
        _ => {
            if is_zero(dst) {
                following_pc(instruction, state)
            } else {
                add(state.pc, op1)
            }
        }
    }
}

fn keeps_call(instruction: &Instruction, state: &State, dst: Value, op0: Value) -> bool
    ensures { result ≡ call_test value_arithmetic (fields instruction.now) (registers state.now) (datum dst) (datum op0) }
{
    if instruction.opcode != 1 {
        return true;
    }
    match following_pc(instruction, state) {
        None => false,
        Some(back) => same(back, op0) && same(dst, state.fp),
    }
}

fn same(a: Value, b: Value) -> bool
    ensures { result ≡ value_arithmetic.same (datum a) (datum b) }
{
    a == b
}

fn keeps_assert(instruction: &Instruction, dst: Value, res: Value) -> bool
    ensures { result ≡ assert_test value_arithmetic (fields instruction.now) (datum dst) (datum res) }
{
    instruction.opcode != 4 || same(res, dst)
}

fn next_ap(instruction: &Instruction, state: &State, res: Value) -> Option<Value>
    ensures { option_map datum result ≡ next_ap_of value_arithmetic (fields instruction.now) (registers state.now) (datum res) }
{
    if instruction.opcode == 1 {
        return above_call(state);
    }
    match instruction.ap_update {
        0 => Some(state.ap),
        1 => add(state.ap, res),
        _ => add(state.ap, number(Felt::ONE)),
    }
}

fn next_fp(instruction: &Instruction, state: &State, dst: Value) -> Option<Value>
    ensures { option_map datum result ≡ next_fp_of value_arithmetic (fields instruction.now) (registers state.now) (datum dst) }
{
    match instruction.opcode {
        1 => above_call(state),
        2 => Some(dst),
        _ => Some(state.fp),
    }
}

// The address above the two cells of a call.
fn above_call(state: &State) -> Option<Value>
    ensures { option_map datum result ≡ moved value_arithmetic (registers state.now).ap 2 }
{
    add(state.ap, number(felt_of(2)))
}

fn number(n: Felt) -> Value
    ensures { datum result ≡ value_arithmetic.numeral n.number }
{
    Value::Number(n)
}
