ghost use Rattle.std.specs.Prelude.{◌≡◌, ◌+◌, ◌<◌, map, length, IfOk, Err};
ghost use Rattle.cairo_model.specs.Machine.Steps.{value_arithmetic, RunsTo};
ghost use Rattle.cairo_model.specs.Views.Machine.{registers};
ghost use Rattle.seg_memory.specs.Memory.{memory_in};
ghost use Rattle.cairo_model.specs.Refusals.ReplayRefusals.{FailsAfter};

use crate::value_step::step_value;
use cairo_model::{End, State, StepFault};
use seg_memory::SegMemory;
use std::alloc::Global;

/// The states of a run, and the last of them once more.
#[derive(Drop)]
pub struct Run {
    pub states: Vec<State>,
    pub last: State,
}

/// The first step that fails, by its number from 0, and its fault.
#[derive(Clone, Copy, Drop)]
pub struct FailedStep {
    pub number: u32,
    pub fault: StepFault,
}

/// The run of so many steps over this memory.
pub fn run_from(
    alloc: Global,
    memory: &SegMemory,
    start: State,
    steps: u32,
) -> Result<Run, End<FailedStep>>
    ensures run { IfOk result (λ run. RunsTo value_arithmetic (memory_in memory.now) (registers start) (map registers run.states.items) (registers run.last)) }
    ensures count { IfOk result (λ run. length run.states.items ≡ steps + 1) }
    ensures early { (e : FailedStep) → result ≡ Err (End.Refused e) → e.number < steps }
    ensures fails { (e : FailedStep) → result ≡ Err (End.Refused e) → FailsAfter value_arithmetic (memory_in memory.now) (registers start) e.number e.fault }
{
    let mut states = Vec::with_capacity(alloc, steps as usize + 1)?;
    states.push(start)?;
    let mut last = start;
    for number in 0..steps {
        match step_value(memory, last) {
            Ok(after) => {
                states.push(after)?;
                last = after;
            }
            Err(fault) => return Err(End::Refused(FailedStep { number, fault })),
        }
    }
    Ok(Run { states, last })
}
