//! One step of the machine over values, in which the cells of a PIE are given.

ghost use Rattle.std.specs.Prelude.{◌≡◌, Ok, Err, MatchResult, option_map};
ghost use Rattle.cairo_model.specs.Machine.Steps.{value_arithmetic, next, found, spelled, register_in, op1_from};
ghost use Rattle.cairo_model.specs.Views.Machine.{registers, datum};
ghost use Rattle.cairo_word.specs.Instructions.{fields};
ghost use Rattle.seg_memory.specs.Memory.{memory_in};

use crate::transitions::next_state;
use cairo_model::{State, StepFault, Value, add, offset_felt};
use cairo_word::{Instruction, Reg, decode};
use seg_memory::SegMemory;

/// The state after one step of the machine over values (docs/MACHINE.md), or the first fault. Takes no memory.
#[tactic(auto, unfolding(cairo_model::specs::Machine::Steps::next))]
pub fn step_value(memory: &SegMemory, state: State) -> Result<State, StepFault>
    ensures { MatchResult result
        (λ after. next value_arithmetic (memory_in memory.now) (registers state) ≡ Ok (registers after))
        (λ fault. next value_arithmetic (memory_in memory.now) (registers state) ≡ Err fault) }
{
    let cell = memory.at(state.pc).ok_or(StepFault::Fetch)?;
    let instruction = spelled_by(cell).ok_or(StepFault::Word)?;
    let dst = cell_from(
        memory,
        in_register(&state, instruction.dst_reg),
        instruction.off_dst,
    )
    .ok_or(StepFault::Dst)?;
    let op0 = cell_from(
        memory,
        in_register(&state, instruction.op0_reg),
        instruction.off_op0,
    )
    .ok_or(StepFault::Op0)?;
    let op1 = cell_from(
        memory,
        op1_base(&instruction, &state, op0),
        instruction.off_op1,
    )
    .ok_or(StepFault::Op1)?;
    next_state(&instruction, &state, dst, op0, op1)
}

/// The instruction that a cell's value spells: none where it is a place, or a number that is no defined word.
pub fn spelled_by(cell: Value) -> Option<Instruction>
    ensures { option_map fields result ≡ spelled value_arithmetic (datum cell) }
{
    match cell {
        Value::Number(n) => decode(n.value()).ok(),
        Value::At(_) => None,
    }
}

/// The value of the register that an operand counts from.
pub fn in_register(state: &State, reg: Reg) -> Value
    ensures { datum result ≡ register_in (registers state.now) reg }
{
    match reg {
        Reg::Ap => state.ap,
        Reg::Fp => state.fp,
    }
}

fn cell_from(memory: &SegMemory, from: Value, offset: i16) -> Option<Value>
    ensures { option_map datum result ≡ found value_arithmetic (memory_in memory.now) (datum from) offset }
{
    memory.at(add(from, Value::Number(offset_felt(offset)))?)
}

fn op1_base(instruction: &Instruction, state: &State, op0: Value) -> Value
    ensures { datum result ≡ op1_from (fields instruction.now) (registers state.now) (datum op0) }
{
    match instruction.op1_src {
        0 => op0,
        1 => state.pc,
        2 => state.fp,
        _ => state.ap,
    }
}
