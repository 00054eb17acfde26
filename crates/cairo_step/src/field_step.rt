ghost use Rattle.std.specs.Prelude.{◌≡◌, ok_or, option_map, Some, MatchResult, IfErr};
ghost use Rattle.cairo_model.specs.Machine.FieldMemories.{cell_at};
ghost use Rattle.cairo_model.specs.Machine.Steps.{field_arithmetic, Step, StepFaultOf, found, spelled, after as after_of, register_in, op1_from, result_of, next_pc as next_pc_of, next_ap as next_ap_of, next_fp as next_fp_of, keeps_call as call_test, keeps_assert as assert_test};
ghost use Rattle.cairo_model.specs.Views.Machine.{field_registers};
ghost use Rattle.cairo_step.specs.FieldFaults.{IsFieldFault};
ghost use Rattle.cairo_word.specs.Instructions.{fields};

use cairo_model::{Cells, FieldState, StepFault, felt_of, offset_felt, size_felt};
use cairo_word::{Instruction, Reg, decode};
use goldi_field::Felt;

/// The state after one step over these cells, or the first line of the table of faults that the state meets
/// (docs/MACHINE.md). Takes no memory.
#[tactic(auto, unfolding(cairo_model::specs::Machine::Steps::next))]
pub fn step(memory: &Cells, state: FieldState) -> Result<FieldState, StepFault>
    ensures answer { MatchResult result
        (λ after. Step field_arithmetic (cell_at memory.now) (field_registers state) (field_registers after))
        (λ fault. StepFaultOf field_arithmetic (cell_at memory.now) (field_registers state) fault) }
    ensures defined { IfErr result IsFieldFault }
{
    let cell = memory.get(state.pc).ok_or(StepFault::Fetch)?;
    let instruction = spelled_by(cell).ok_or(StepFault::Word)?;
    let dst = cell_from(
        memory,
        in_register(&state, instruction.dst_reg),
        instruction.off_dst,
    )
    .ok_or(StepFault::Dst)?;
    let op0 = cell_from(
        memory,
        in_register(&state, instruction.op0_reg),
        instruction.off_op0,
    )
    .ok_or(StepFault::Op0)?;
    let op1 = cell_from(
        memory,
        op1_base(&instruction, &state, op0),
        instruction.off_op1,
    )
    .ok_or(StepFault::Op1)?;
    let res = result_in(&instruction, op0, op1);
    let pc = next_pc(&instruction, &state, dst, op1, res);
    if !keeps_call(&instruction, &state, dst, op0) {
        return Err(StepFault::Call);
    }
    if !keeps_assert(&instruction, dst, res) {
        return Err(StepFault::Assert);
    }
    Ok(FieldState {
        pc,
        ap: next_ap(&instruction, &state, res),
        fp: next_fp(&instruction, &state, dst),
    })
}

fn spelled_by(cell: Felt) -> Option<Instruction>
    ensures { option_map fields result ≡ spelled field_arithmetic cell.number }
{
    decode(cell.value()).ok()
}

fn in_register(state: &FieldState, reg: Reg) -> Felt
    ensures { result.number ≡ register_in (field_registers state.now) reg }
{
    match reg {
        Reg::Ap => state.ap,
        Reg::Fp => state.fp,
    }
}

fn cell_from(memory: &Cells, from: Felt, offset: i16) -> Option<Felt>
    ensures { option_map (λ f. f.number) result ≡ found field_arithmetic (cell_at memory.now) from.number offset }
{
    memory.get(from.add(offset_felt(offset)))
}

fn op1_base(instruction: &Instruction, state: &FieldState, op0: Felt) -> Felt
    ensures { result.number ≡ op1_from (fields instruction.now) (field_registers state.now) op0.number }
{
    match instruction.op1_src {
        0 => op0,
        1 => state.pc,
        2 => state.fp,
        _ => state.ap,
    }
}

fn result_in(instruction: &Instruction, op0: Felt, op1: Felt) -> Felt
    ensures { result_of field_arithmetic (fields instruction.now) op0.number op1.number ≡ Some result.number }
{
    if instruction.pc_update == 4 {
        return op1;
    }
    match instruction.res_logic {
        0 => op1,
        1 => op0.add(op1),
        _ => op0.mul(op1),
    }
}

fn after(instruction: &Instruction, state: &FieldState) -> Felt
    ensures { after_of field_arithmetic (fields instruction.now) (field_registers state.now) ≡ Some result.number }
{
    state.pc.add(size_felt(instruction))
}

fn next_pc(instruction: &Instruction, state: &FieldState, dst: Felt, op1: Felt, res: Felt) -> Felt
    ensures { next_pc_of field_arithmetic (fields instruction.now) (field_registers state.now) dst.number op1.number res.number ≡ Some result.number }
{
    match instruction.pc_update {
        0 => after(instruction, state),
        1 => res,
        2 => state.pc.add(res),
        _ => {
            if dst == Felt::ZERO {
                after(instruction, state)
            } else {
                state.pc.add(op1)
            }
        }
    }
}

fn keeps_call(instruction: &Instruction, state: &FieldState, dst: Felt, op0: Felt) -> bool
    ensures { result ≡ call_test field_arithmetic (fields instruction.now) (field_registers state.now) dst.number op0.number }
{
    instruction.opcode != 1 || (op0 == after(instruction, state) && dst == state.fp)
}

fn keeps_assert(instruction: &Instruction, dst: Felt, res: Felt) -> bool
    ensures { result ≡ assert_test field_arithmetic (fields instruction.now) dst.number res.number }
{
    instruction.opcode != 4 || res == dst
}

fn next_ap(instruction: &Instruction, state: &FieldState, res: Felt) -> Felt
    ensures { next_ap_of field_arithmetic (fields instruction.now) (field_registers state.now) res.number ≡ Some result.number }
{
    if instruction.opcode == 1 {
        return state.ap.add(felt_of(2));
    }
    match instruction.ap_update {
        0 => state.ap,
        1 => state.ap.add(res),
        _ => state.ap.add(Felt::ONE),
    }
}

fn next_fp(instruction: &Instruction, state: &FieldState, dst: Felt) -> Felt
    ensures { next_fp_of field_arithmetic (fields instruction.now) (field_registers state.now) dst.number ≡ Some result.number }
{
    match instruction.opcode {
        1 => state.ap.add(felt_of(2)),
        2 => dst,
        _ => state.fp,
    }
}
