//! One step: the puts of the rules in their order, and then the machine's transition.

ghost use Rattle.std.specs.Prelude.{◌≡◌, Ok, Err, IfOk, OnOk, option_map, true};
ghost use Rattle.cairo_model.specs.Views.Machine.{datum, registers};
ghost use Rattle.seg_memory.specs.Memory.{memory_in};
ghost use Rattle.pie_replay.specs.Transitions.{moved_on};
ghost use Rattle.cairo_word.specs.Instructions.{fields};
ghost use Rattle.seg_runner.specs.Deductions.{by_assertion as by_assertion_of, by_hash, put_asserted as asserted_of};
ghost use Rattle.seg_runner.specs.Memories.{put_where_absent as put_absent_of};
ghost use Rattle.seg_runner.specs.Steps.{concluded as conclusion, consistent as consistent_of, fetched_fields as fetched_by, op1_at as op1_by, refused_at, run_step, with_first_puts, with_last_puts};
ghost use Rattle.seg_runner.specs.Views.{run_cause};
ghost use Rattle.seg_runner.specs.Working.Seen.{configuration, growing, place_datum};
ghost use Rattle.seg_runner.specs.Working.Running.{HasSevenSizes, IsInstruction};

use crate::deductions::{caller_frame, deduced_op0, deduced_op1, return_address};
use crate::hashes::hash_output;
use crate::operands::{op1_base, operand_at};
use crate::puts::{put_at, put_where_absent};
use crate::refusal::RunRefusal;
use cairo_model::{End, Place, State, StepFault, Value};
use cairo_word::Instruction;
use pie_replay::{in_register, next_state, result_in, spelled_by};
use seg_memory::SegMemory;
use std::alloc::Global;

// A step that has its instruction and the places of its first two operands.
#[derive(Clone, Copy, Drop)]
struct Operation {
    number: u32,
    instruction: Instruction,
    state: State,
    dst: Place,
    op0: Place,
}

/// The step of this number: the state after it, and the memory with what the rules put.
#[tactic(auto, unfolding(crate::specs::Steps::run_step))]
pub(crate) fn step(
    alloc: Global,
    memory: &mut SegMemory,
    state: State,
    number: u32,
) -> Result<State, End<RunRefusal>>
    requires { HasSevenSizes memory.old }
    ensures ok { IfOk result (λ after. run_step number (configuration memory.old state) ≡ Ok (configuration memory.new after)) }
    ensures keeps { OnOk result (HasSevenSizes memory.new) }
    ensures refused { (e : RunRefusal) → result ≡ Err (End.Refused e) → run_step number (configuration memory.old state) ≡ Err (run_cause e) }
{
    let instruction = instruction_at(memory, &state, number)?;
    let dst = operand_at(
        in_register(&state, instruction.dst_reg),
        instruction.off_dst,
    )
    .ok_or(End::Refused(RunRefusal::Fault(number, StepFault::Dst)))?;
    let op0 = operand_at(
        in_register(&state, instruction.op0_reg),
        instruction.off_op0,
    )
    .ok_or(End::Refused(RunRefusal::Fault(number, StepFault::Op0)))?;
    let operation = Operation {
        number,
        instruction,
        state,
        dst,
        op0,
    };
    put_first(alloc, memory, &operation)?;
    let op1 = op1_at(memory, &operation)?;
    put_last(alloc, memory, &operation, op1)?;
    concluded(memory, &operation, op1)
}

fn instruction_at(
    memory: &SegMemory,
    state: &State,
    number: u32,
) -> Result<Instruction, End<RunRefusal>>
    ensures ok { IfOk result (λ i. fetched_by number (configuration memory.now state.now) ≡ Ok (fields i)) }
    ensures refused { (e : RunRefusal) → result ≡ Err (End.Refused e) → fetched_by number (configuration memory.now state.now) ≡ Err (run_cause e) }
{
    let cell = memory
        .at(state.pc)
        .ok_or(End::Refused(RunRefusal::Fault(number, StepFault::Fetch)))?;
    spelled_by(cell).ok_or(End::Refused(RunRefusal::Fault(number, StepFault::Word)))
}

// What is put before op1 is looked for: outputs of the hash builtin, and the cells of a call.
#[tactic(auto, unfolding(crate::specs::Steps::with_first_puts))]
fn put_first(alloc: Global, memory: &mut SegMemory, of: &Operation) -> Result<(), End<RunRefusal>>
    requires { HasSevenSizes memory.old }
    ensures ok { OnOk result (with_first_puts of.now.number (growing memory.old) (fields of.now.instruction) (registers of.now.state) (place_datum of.now.dst) (place_datum of.now.op0) ≡ Ok (growing memory.new)) }
    ensures keeps { OnOk result (HasSevenSizes memory.new) }
    ensures refused { (e : RunRefusal) → result ≡ Err (End.Refused e) → with_first_puts of.now.number (growing memory.old) (fields of.now.instruction) (registers of.now.state) (place_datum of.now.dst) (place_datum of.now.op0) ≡ Err (run_cause e) }
{
    put_by_hash(alloc, memory, of.dst, of.number)?;
    put_by_hash(alloc, memory, of.op0, of.number)?;
    let back = return_address(&of.instruction, &of.state);
    put_where_absent(alloc, memory, of.op0, back, of.number)?;
    let frame = caller_frame(&of.instruction, &of.state);
    put_where_absent(alloc, memory, of.dst, frame, of.number)
}

// Puts what the hash builtin gives, where nothing stands.
fn put_by_hash(
    alloc: Global,
    memory: &mut SegMemory,
    place: Place,
    number: u32,
) -> Result<(), End<RunRefusal>>
    requires { HasSevenSizes memory.old }
    ensures ok { OnOk result (put_absent_of number (growing memory.old) (place_datum place) (by_hash (growing memory.old) (place_datum place)) ≡ Ok (growing memory.new)) }
    ensures keeps { OnOk result (HasSevenSizes memory.new) }
    ensures refused { (e : RunRefusal) → result ≡ Err (End.Refused e) → put_absent_of number (growing memory.old) (place_datum place) (by_hash (growing memory.old) (place_datum place)) ≡ Err (run_cause e) }
{
    if memory.get(place).is_some() {
        return Ok(());
    }
    match hash_output(memory, place) {
        Some(value) => put_at(alloc, memory, place, value, number),
        None => Ok(()),
    }
}

fn op1_at(memory: &SegMemory, of: &Operation) -> Result<Place, End<RunRefusal>>
    ensures ok { IfOk result (λ op1. op1_by of.now.number (growing memory.now) (fields of.now.instruction) (registers of.now.state) (place_datum of.now.op0) ≡ Ok (place_datum op1)) }
    ensures refused { (e : RunRefusal) → result ≡ Err (End.Refused e) → op1_by of.now.number (growing memory.now) (fields of.now.instruction) (registers of.now.state) (place_datum of.now.op0) ≡ Err (run_cause e) }
{
    let base = op1_base(&of.instruction, &of.state, memory.get(of.op0)).ok_or(End::Refused(
        RunRefusal::Unknown(of.number),
    ))?;
    operand_at(base, of.instruction.off_op1).ok_or(End::Refused(RunRefusal::Fault(
        of.number,
        StepFault::Op1,
    )))
}

// What is put once op1 has its address: an output of the hash builtin, and a cell of an assertion.
#[tactic(auto, unfolding(crate::specs::Steps::with_last_puts))]
fn put_last(
    alloc: Global,
    memory: &mut SegMemory,
    of: &Operation,
    op1: Place,
) -> Result<(), End<RunRefusal>>
    requires { HasSevenSizes memory.old }
    ensures ok { OnOk result (with_last_puts of.now.number (growing memory.old) (fields of.now.instruction) (place_datum of.now.dst) (place_datum of.now.op0) (place_datum op1) ≡ Ok (growing memory.new)) }
    ensures keeps { OnOk result (HasSevenSizes memory.new) }
    ensures refused { (e : RunRefusal) → result ≡ Err (End.Refused e) → with_last_puts of.now.number (growing memory.old) (fields of.now.instruction) (place_datum of.now.dst) (place_datum of.now.op0) (place_datum op1) ≡ Err (run_cause e) }
{
    put_by_hash(alloc, memory, op1, of.number)?;
    put_by_assertion(alloc, memory, of, op1)
}

#[tactic(auto, unfolding(crate::specs::Deductions::by_assertion))]
fn put_by_assertion(
    alloc: Global,
    memory: &mut SegMemory,
    of: &Operation,
    op1: Place,
) -> Result<(), End<RunRefusal>>
    requires { HasSevenSizes memory.old }
    ensures ok { OnOk result (by_assertion_of of.now.number (growing memory.old) (fields of.now.instruction) (place_datum of.now.dst) (place_datum of.now.op0) (place_datum op1) ≡ Ok (growing memory.new)) }
    ensures keeps { OnOk result (HasSevenSizes memory.new) }
    ensures refused { (e : RunRefusal) → result ≡ Err (End.Refused e) → by_assertion_of of.now.number (growing memory.old) (fields of.now.instruction) (place_datum of.now.dst) (place_datum of.now.op0) (place_datum op1) ≡ Err (run_cause e) }
{
    if of.instruction.opcode != 4 {
        return Ok(());
    }
    let stand = Standing {
        dst: memory.get(of.dst),
        op0: memory.get(of.op0),
        op1: memory.get(op1),
    };
    put_asserted(alloc, memory, of, op1, stand)
}

// The values of an instruction's three cells, as far as they stand.
#[derive(Clone, Copy, Drop)]
struct Standing {
    dst: Option<Value>,
    op0: Option<Value>,
    op1: Option<Value>,
}

// Puts the one cell of an assertion that is absent, if the other two stand.
fn put_asserted(
    alloc: Global,
    memory: &mut SegMemory,
    of: &Operation,
    op1: Place,
    stand: Standing,
) -> Result<(), End<RunRefusal>>
    requires { HasSevenSizes memory.old }
    ensures ok { OnOk result (asserted_of of.now.number (growing memory.old) (fields of.now.instruction) (place_datum of.now.dst) (place_datum of.now.op0) (place_datum op1) (option_map datum stand.dst) (option_map datum stand.op0) (option_map datum stand.op1) ≡ Ok (growing memory.new)) }
    ensures keeps { OnOk result (HasSevenSizes memory.new) }
    ensures refused { (e : RunRefusal) → result ≡ Err (End.Refused e) → asserted_of of.now.number (growing memory.old) (fields of.now.instruction) (place_datum of.now.dst) (place_datum of.now.op0) (place_datum op1) (option_map datum stand.dst) (option_map datum stand.op0) (option_map datum stand.op1) ≡ Err (run_cause e) }
{
    match (stand.dst, stand.op0, stand.op1) {
        (Some(dst), None, Some(value)) => {
            let value = deduced_op0(&of.instruction, dst, value);
            put_where_absent(alloc, memory, of.op0, value, of.number)
        }
        (Some(dst), Some(op0), None) => {
            let value = deduced_op1(&of.instruction, dst, op0);
            put_where_absent(alloc, memory, op1, value, of.number)
        }
        (None, Some(op0), Some(value)) => {
            let value = result_in(&of.instruction, op0, value);
            put_where_absent(alloc, memory, of.dst, value, of.number)
        }
        _ => Ok(()),
    }
}

// The three cells stand, an assertion holds, and the machine makes its transition.
#[tactic(auto, unfolding(crate::specs::Steps::concluded))]
fn concluded(memory: &SegMemory, of: &Operation, op1_at: Place) -> Result<State, End<RunRefusal>>
    requires { IsInstruction (memory_in memory.now) (fields of.now.instruction) (registers of.now.state) (place_datum of.now.dst) (place_datum of.now.op0) (place_datum op1_at) }
    ensures ok { IfOk result (λ after. conclusion of.now.number (growing memory.now) (fields of.now.instruction) (registers of.now.state) (place_datum of.now.dst) (place_datum of.now.op0) (place_datum op1_at) ≡ Ok (registers after)) }
    ensures refused { (e : RunRefusal) → result ≡ Err (End.Refused e) → conclusion of.now.number (growing memory.now) (fields of.now.instruction) (registers of.now.state) (place_datum of.now.dst) (place_datum of.now.op0) (place_datum op1_at) ≡ Err (run_cause e) }
{
    let unknown = End::Refused(RunRefusal::Unknown(of.number));
    let dst = memory.get(of.dst).ok_or(unknown)?;
    let op0 = memory.get(of.op0).ok_or(unknown)?;
    let op1 = memory.get(op1_at).ok_or(unknown)?;
    consistent(of, dst, op0, op1)?;
    transition(of, dst, op0, op1)
}

// The machine's transition from these values, or its fault.
fn transition(of: &Operation, dst: Value, op0: Value, op1: Value) -> Result<State, End<RunRefusal>>
    ensures ok { IfOk result (λ after. refused_at of.now.number (moved_on (fields of.now.instruction) (registers of.now.state) (datum dst) (datum op0) (datum op1)) ≡ Ok (registers after)) }
    ensures refused { (e : RunRefusal) → result ≡ Err (End.Refused e) → refused_at of.now.number (moved_on (fields of.now.instruction) (registers of.now.state) (datum dst) (datum op0) (datum op1)) ≡ Err (run_cause e) }
{
    match next_state(&of.instruction, &of.state, dst, op0, op1) {
        Ok(after) => Ok(after),
        Err(fault) => Err(End::Refused(RunRefusal::Fault(of.number, fault))),
    }
}

// That the result of an assertion, where it is defined, is dst.
fn consistent(of: &Operation, dst: Value, op0: Value, op1: Value) -> Result<(), End<RunRefusal>>
    ensures ok { OnOk result (consistent_of of.now.number (fields of.now.instruction) (datum dst) (datum op0) (datum op1) ≡ Ok true) }
    ensures refused { (e : RunRefusal) → result ≡ Err (End.Refused e) → consistent_of of.now.number (fields of.now.instruction) (datum dst) (datum op0) (datum op1) ≡ Err (run_cause e) }
{
    if of.instruction.opcode != 4 {
        return Ok(());
    }
    match result_in(&of.instruction, op0, op1) {
        None => Ok(()),
        Some(res) => {
            if res == dst {
                Ok(())
            } else {
                Err(End::Refused(RunRefusal::Conflict(of.number, dst, res)))
            }
        }
    }
}
