//! The runner: from code to a PIE that is accepted alone.

ghost use Rattle.std.specs.Prelude.{◌≡◌, ◌<◌, ◌≤◌, Ok, Err, IfOk, length};
ghost use Rattle.cairo_model.specs.Limits.{most_cells, most_steps, offset_limit};
ghost use Rattle.cairo_model.specs.Pie.Acceptance.{AcceptedWith, HoldsNumbers};
ghost use Rattle.cairo_model.specs.Pie.Records.{segment_size};
ghost use Rattle.cairo_model.specs.Segments.{program_segment};
ghost use Rattle.seg_runner.specs.Answers.{IsRunAnswer, IsRunRefusal, RunsToPie};
ghost use Rattle.seg_runner.specs.Views.{run_cause};
ghost use Rattle.seg_runner.specs.Working.Seen.{growing};
ghost use Rattle.seg_runner.specs.Working.Running.{HasSevenSizes, ended, run_of};

use crate::completion::complete;
use crate::puts::size_in;
use crate::refusal::RunRefusal;
use crate::running::run_home;
use crate::starting::{start_memory, start_state};
use cairo_model::limits::LEAST_SEGMENTS;
use cairo_model::{Checked, End, Pie};
use casm_text::Code;
use pie_replay::replay;
use seg_memory::SegMemory;
use std::alloc::{AllocError, Global};

/// Runs a program by the rules of deduction (docs/RUNNER.md), at most so many steps, to a PIE that is accepted alone.
pub fn run(alloc: Global, code: &Code, limit: u32) -> Result<Checked, End<RunRefusal>>
    requires limit { limit ≤ most_steps }
    requires words { length code.now.words.items ≤ most_cells }
    requires main { code.now.main < offset_limit }
    ensures accepted { IfOk result (λ checked. AcceptedWith checked.pie checked.fact checked.states) }
    ensures ok { IfOk result (λ checked. IsRunAnswer code.now.words.items code.now.main limit (Ok checked.pie)) }
    ensures code { IfOk result (λ checked. HoldsNumbers checked.pie.cells program_segment (segment_size checked.pie program_segment) code.now.words.items) }
    ensures main { IfOk result (λ checked. checked.pie.main ≡ code.now.main) }
    ensures steps { IfOk result (λ checked. checked.pie.steps ≤ limit) }
    ensures refused { (e : RunRefusal) → result ≡ Err (End.Refused e) → IsRunAnswer code.now.words.items code.now.main limit (Err (run_cause e)) }
{
    let pie = made(alloc, code, limit)?;
    match replay(alloc, pie) {
        Ok(checked) => Ok(checked),
        Err(End::Refused(refusal)) => Err(End::Refused(RunRefusal::Refused(refusal))),
        Err(End::OutOfMemory) => Err(End::OutOfMemory),
    }
}

// A memory, and the steps that led to it.
#[derive(Drop)]
struct Home {
    memory: SegMemory,
    steps: u32,
}

// The PIE of the run, whether it is accepted or not.
fn made(alloc: Global, code: &Code, limit: u32) -> Result<Pie, End<RunRefusal>>
    requires limit { limit ≤ most_steps }
    requires words { length code.now.words.items ≤ most_cells }
    requires main { code.now.main < offset_limit }
    ensures runs { IfOk result (λ pie. RunsToPie code.now.words.items code.now.main limit pie) }
    ensures code { IfOk result (λ pie. HoldsNumbers pie.cells program_segment (segment_size pie program_segment) code.now.words.items) }
    ensures refused { (e : RunRefusal) → result ≡ Err (End.Refused e) → IsRunRefusal code.now.words.items code.now.main limit (run_cause e) }
{
    let home = brought_home(alloc, code, limit)?;
    Ok(Pie {
        main: code.main,
        steps: home.steps,
        sizes: sizes_of(alloc, &home.memory)?,
        cells: home.memory.cells(alloc)?,
    })
}

#[tactic(auto, unfolding(crate::specs::Working::Running::run_of))]
fn brought_home(alloc: Global, code: &Code, limit: u32) -> Result<Home, End<RunRefusal>>
    requires words { length code.now.words.items ≤ most_cells }
    requires main { code.now.main < offset_limit }
    ensures ok { IfOk result (λ home. run_of code.now.words.items code.now.main limit ≡ Ok (ended home.steps (growing home.memory))) }
    ensures keeps { IfOk result (λ home. HasSevenSizes home.memory) }
    ensures refused { (e : RunRefusal) → result ≡ Err (End.Refused e) → run_of code.now.words.items code.now.main limit ≡ Err (run_cause e) }
{
    let mut memory = start_memory(alloc, code)?;
    let steps = run_home(alloc, &mut memory, start_state(code.main), limit)?;
    complete(alloc, &mut memory, steps)?;
    Ok(Home { memory, steps })
}

// The sizes of the segments, in cells.
fn sizes_of(alloc: Global, memory: &SegMemory) -> Result<Vec<u32>, AllocError>
    requires { HasSevenSizes memory.now }
    ensures { IfOk result (λ sizes. sizes.items ≡ memory.now.sizes) }
{
    let mut sizes = Vec::new(alloc);
    for segment in 0..LEAST_SEGMENTS as u16 {
        sizes.push(size_in(memory, segment))?;
    }
    Ok(sizes)
}
