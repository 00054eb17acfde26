ghost use Rattle.std.specs.Prelude.{◌≡◌, ◌<◌, map, IfOk, IfNone, IfSome, Err};
ghost use Rattle.cairo_model.specs.Pie.Acceptance.{IsHome, IsolatedRun, start_of};
ghost use Rattle.cairo_model.specs.Pie.Records.{KeepsRules, segment_size};
ghost use Rattle.cairo_model.specs.Segments.{program_segment};
ghost use Rattle.cairo_model.specs.Refusals.ReplayRefusals.{EndsIn, IsFirstReplayCause};
ghost use Rattle.cairo_model.specs.Views.ReplayRefusals.{replay_cause};
ghost use Rattle.cairo_model.specs.Views.Machine.{registers};
ghost use Rattle.pie_replay.specs.Working.Replaying.{IsClaimedRun, IsMemoryOf, Passes};

use crate::convention::bad_stop_pointer;
use crate::runs::{FailedStep, Run, run_from};
use crate::segments::{is_value, place_value};
use cairo_model::segments::{EXECUTION, FRAME, PROGRAM, RETURN_FP, RETURN_PC};
use cairo_model::{End, Pie, ReplayRefusal, State};
use seg_memory::SegMemory;
use std::alloc::Global;

/// The states of the isolated run: so many steps from the start to a state at home.
pub(crate) fn isolated_states(
    alloc: Global,
    memory: &SegMemory,
    pie: &Pie,
) -> Result<Vec<State>, End<ReplayRefusal>>
    requires rules { KeepsRules pie.now }
    requires cells { IsMemoryOf memory.now pie.now }
    requires main { pie.now.main < segment_size pie.now program_segment }
    requires passed { Passes pie.now 26 }
    ensures isolated { IfOk result (λ states. IsolatedRun pie.now (map registers states.items)) }
    ensures refused { (e : ReplayRefusal) → result ≡ Err (End.Refused e) → IsFirstReplayCause pie.now (replay_cause e) }
{
    let run = claimed_run(alloc, memory, pie)?;
    match not_home(memory, pie, &run.last) {
        Some(refusal) => Err(End::Refused(refusal)),
        None => Ok(run.states),
    }
}

// The run of as many steps as the PIE claims.
fn claimed_run(alloc: Global, memory: &SegMemory, pie: &Pie) -> Result<Run, End<ReplayRefusal>>
    requires rules { KeepsRules pie.now }
    requires cells { IsMemoryOf memory.now pie.now }
    requires main { pie.now.main < segment_size pie.now program_segment }
    requires passed { Passes pie.now 26 }
    ensures run { IfOk result (λ run. IsClaimedRun pie.now (map registers run.states.items) (registers run.last)) }
    ensures passes { IfOk result (λ run. Passes pie.now 27) }
    ensures refused { (e : ReplayRefusal) → result ≡ Err (End.Refused e) → IsFirstReplayCause pie.now (replay_cause e) }
{
    match run_from(alloc, memory, first_state(pie), pie.steps) {
        Ok(run) => Ok(run),
        Err(End::Refused(FailedStep { number, fault })) => Err(End::Refused(ReplayRefusal::Step(
            number, fault,
        ))),
        Err(End::OutOfMemory) => Err(End::OutOfMemory),
    }
}

fn first_state(pie: &Pie) -> State
    requires rules { KeepsRules pie.now }
    requires main { pie.now.main < segment_size pie.now program_segment }
    ensures { registers result ≡ start_of pie.now }
{
    let stack = place_value(EXECUTION, FRAME.len() as u32);
    State {
        pc: place_value(PROGRAM, pie.main as u32),
        ap: stack,
        fp: stack,
    }
}

// Why the last state is not at home, if it isn't.
fn not_home(memory: &SegMemory, pie: &Pie, last: &State) -> Option<ReplayRefusal>
    requires rules { KeepsRules pie.now }
    requires cells { IsMemoryOf memory.now pie.now }
    requires ends { EndsIn pie.now (registers last.now) }
    requires passed { Passes pie.now 27 }
    ensures none { IfNone result (IsHome pie.now (registers last.now)) }
    ensures some { IfSome result (λ e. IsFirstReplayCause pie.now (replay_cause e)) }
{
    if !is_value(last.pc, place_value(RETURN_PC, 0)) {
        return Some(ReplayRefusal::NotHome(last.pc));
    }
    if !is_value(last.fp, place_value(RETURN_FP, 0)) {
        return Some(ReplayRefusal::WrongFrame(last.fp));
    }
    match bad_stop_pointer(memory, pie, last.ap) {
        Some(i) => Some(ReplayRefusal::StopPointer(i)),
        None => None,
    }
}
