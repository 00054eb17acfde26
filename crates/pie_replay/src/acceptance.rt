ghost use Rattle.std.specs.Prelude.{◌≡◌, map, length, IfOk, Err, ◌<◌, ◌^◌, ◌-◌};
ghost use Rattle.builtin_hash.specs.Programs.{program_hash_of};
ghost use Rattle.cairo_model.specs.Pie.Acceptance.{AcceptedWith, HasFrame, HasInstances, HasRangeCells, HoldsNumbers};
ghost use Rattle.cairo_model.specs.Pie.Records.{KeepsRules, segment_size};
ghost use Rattle.cairo_model.specs.Segments.{builtin_mask, output_segment, program_segment};
ghost use Rattle.cairo_model.specs.Refusals.ReplayRefusals.{IsFirstReplayCause};
ghost use Rattle.cairo_model.specs.Views.ReplayRefusals.{replay_cause};
ghost use Rattle.cairo_model.specs.Views.Machine.{registers};
ghost use Rattle.pie_replay.specs.Working.Replaying.{IsMemoryOf, Passes};

use crate::builtins::{bad_instance, bad_range_cell};
use crate::convention::bad_frame_cell;
use crate::ending::isolated_states;
use crate::segments::{numbers_in, size_of};
use builtin_hash::{ProgramHash, program_hash};
use cairo_model::segments::{BUILTIN_MASK, OUTPUT, PROGRAM};
use cairo_model::{Checked, End, Fact, Outputs, Pie, ReplayRefusal, State};
use goldi_field::Felt;
use seg_memory::SegMemory;
use std::alloc::{AllocError, Global};

/// The PIE with its fact and its isolated states, where it is accepted alone, or else the first cause against it
/// (docs/PIE.md).
pub fn replay(alloc: Global, pie: Pie) -> Result<Checked, End<ReplayRefusal>>
    requires { KeepsRules pie }
    ensures ok { IfOk result (λ checked. checked.pie ≡ pie) }
    ensures accepted { IfOk result (λ checked. AcceptedWith pie checked.fact checked.states) }
    // So no cause applies where the PIE is accepted (`accepted_has_no_cause`), and one is named where it isn't.
    ensures refused { (e : ReplayRefusal) → result ≡ Err (End.Refused e) → IsFirstReplayCause pie (replay_cause e) }
{
    let (fact, states) = examine(alloc, &pie)?;
    Ok(Checked::of(pie, fact, states))
}

fn examine(alloc: Global, pie: &Pie) -> Result<(Fact, Vec<State>), End<ReplayRefusal>>
    requires { KeepsRules pie.now }
    ensures ok { IfOk result (λ found. AcceptedWith pie.now found.0 (map registers found.1.items)) }
    ensures refused { (e : ReplayRefusal) → result ≡ Err (End.Refused e) → IsFirstReplayCause pie.now (replay_cause e) }
{
    let memory = SegMemory::of(alloc, pie)?;
    let code = program_of(alloc, &memory, pie)?;
    frame_of(&memory, pie)?;
    let outputs = outputs_of(alloc, &memory, pie)?;
    builtins_of(&memory, pie)?;
    let states = isolated_states(alloc, &memory, pie)?;
    let fact = Fact {
        program: hash_of(alloc, pie, code.as_slice())?,
        outputs: Outputs::of(outputs),
    };
    Ok((fact, states))
}

// The numbers of the program segment, with main among them.
fn program_of(alloc: Global, memory: &SegMemory, pie: &Pie) -> Result<Vec<Felt>, End<ReplayRefusal>>
    requires rules { KeepsRules pie.now }
    requires cells { IsMemoryOf memory.now pie.now }
    ensures code { IfOk result (λ code. HoldsNumbers pie.now.cells program_segment (segment_size pie.now program_segment) (map (λ f. f.number) code.items)) }
    ensures main { IfOk result (λ _. pie.now.main < segment_size pie.now program_segment) }
    ensures passes { IfOk result (λ _. Passes pie.now 22) }
    ensures refused { (e : ReplayRefusal) → result ≡ Err (End.Refused e) → IsFirstReplayCause pie.now (replay_cause e) }
{
    match numbers_in(alloc, memory, pie, PROGRAM) {
        Ok(code) => {
            if pie.main >= u64::from(size_of(pie, PROGRAM)) {
                return Err(End::Refused(ReplayRefusal::BadMain(pie.main)));
            }
            Ok(code)
        }
        Err(End::Refused(offset)) => Err(End::Refused(ReplayRefusal::ProgramCell(offset))),
        Err(End::OutOfMemory) => Err(End::OutOfMemory),
    }
}

fn frame_of(memory: &SegMemory, pie: &Pie) -> Result<(), End<ReplayRefusal>>
    requires cells { IsMemoryOf memory.now pie.now }
    requires passed { Passes pie.now 22 }
    ensures frame { IfOk result (λ _. HasFrame builtin_mask pie.now.cells) }
    ensures passes { IfOk result (λ _. Passes pie.now 23) }
    ensures refused { (e : ReplayRefusal) → result ≡ Err (End.Refused e) → IsFirstReplayCause pie.now (replay_cause e) }
{
    match bad_frame_cell(memory, pie) {
        Some(i) => Err(End::Refused(ReplayRefusal::BadFrame(i))),
        None => Ok(()),
    }
}

fn outputs_of(alloc: Global, memory: &SegMemory, pie: &Pie) -> Result<Vec<Felt>, End<ReplayRefusal>>
    requires rules { KeepsRules pie.now }
    requires cells { IsMemoryOf memory.now pie.now }
    requires passed { Passes pie.now 23 }
    ensures outputs { IfOk result (λ outputs. HoldsNumbers pie.now.cells output_segment (segment_size pie.now output_segment) (map (λ f. f.number) outputs.items)) }
    ensures passes { IfOk result (λ _. Passes pie.now 24) }
    ensures refused { (e : ReplayRefusal) → result ≡ Err (End.Refused e) → IsFirstReplayCause pie.now (replay_cause e) }
{
    match numbers_in(alloc, memory, pie, OUTPUT) {
        Ok(outputs) => Ok(outputs),
        Err(End::Refused(offset)) => Err(End::Refused(ReplayRefusal::OutputCell(offset))),
        Err(End::OutOfMemory) => Err(End::OutOfMemory),
    }
}

// That the range segment and the hash segment hold what the builtins ask.
fn builtins_of(memory: &SegMemory, pie: &Pie) -> Result<(), End<ReplayRefusal>>
    requires rules { KeepsRules pie.now }
    requires cells { IsMemoryOf memory.now pie.now }
    requires passed { Passes pie.now 24 }
    ensures range { IfOk result (λ _. HasRangeCells pie.now) }
    ensures hash { IfOk result (λ _. HasInstances pie.now) }
    ensures passes { IfOk result (λ _. Passes pie.now 26) }
    ensures refused { (e : ReplayRefusal) → result ≡ Err (End.Refused e) → IsFirstReplayCause pie.now (replay_cause e) }
{
    if let Some(offset) = bad_range_cell(memory, pie) {
        return Err(End::Refused(ReplayRefusal::RangeCell(offset)));
    }
    if let Some(index) = bad_instance(memory, pie) {
        return Err(End::Refused(ReplayRefusal::HashInstance(index)));
    }
    Ok(())
}

fn hash_of(alloc: Global, pie: &Pie, code: &[Felt]) -> Result<ProgramHash, AllocError>
    requires { length code.now < 2 ^ 32 - 4 }
    ensures { IfOk result (λ hash. hash.words ≡ program_hash_of pie.now.main builtin_mask (map (λ f. f.number) code.now)) }
{
    let words = words_of(alloc, code)?;
    Ok(program_hash(pie.main, BUILTIN_MASK, words.as_slice()))
}

fn words_of(alloc: Global, code: &[Felt]) -> Result<Vec<u64>, AllocError>
    ensures { IfOk result (λ words. words.items ≡ map (λ f. f.number) code.now) }
{
    let mut words = Vec::with_capacity(alloc, code.len())?;
    for word in code {
        words.push(word.value())?;
    }
    Ok(words)
}
