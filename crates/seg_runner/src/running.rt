//! The run: one step after the other, until it is home.

ghost use Rattle.std.specs.Prelude.{◌≡◌, Ok, Err, IfOk, OnOk};
ghost use Rattle.cairo_model.specs.Views.Machine.{registers};
ghost use Rattle.seg_runner.specs.Endings.{is_returned as return_test};
ghost use Rattle.seg_runner.specs.Views.{run_cause};
ghost use Rattle.seg_runner.specs.Working.Seen.{configuration, growing};
ghost use Rattle.seg_runner.specs.Working.Running.{HasSevenSizes, ended, runs_on};

use crate::refusal::RunRefusal;
use crate::stepping::step;
use cairo_model::segments::RETURN_PC;
use cairo_model::{End, Place, State, Value};
use seg_memory::SegMemory;
use std::alloc::Global;

/// The steps until the run is home, at most as many as the limit allows.
pub(crate) fn run_home(
    alloc: Global,
    memory: &mut SegMemory,
    start: State,
    limit: u32,
) -> Result<u32, End<RunRefusal>>
    requires { HasSevenSizes memory.old }
    ensures ok { IfOk result (λ steps. runs_on limit 0 (configuration memory.old start) ≡ Ok (ended steps (growing memory.new))) }
    ensures keeps { OnOk result (HasSevenSizes memory.new) }
    ensures refused { (e : RunRefusal) → result ≡ Err (End.Refused e) → runs_on limit 0 (configuration memory.old start) ≡ Err (run_cause e) }
{
    let mut state = start;
    for number in 0..limit {
        if is_returned(&state) {
            return Ok(number);
        }
        state = step(alloc, memory, state, number)?;
    }
    if !is_returned(&state) {
        return Err(End::Refused(RunRefusal::StepLimit(limit)));
    }
    Ok(limit)
}

fn is_returned(state: &State) -> bool
    ensures { result ≡ return_test (registers state.now) }
{
    let home = Place {
        segment: RETURN_PC,
        offset: 0,
    };
    state.pc == Value::At(home)
}
