//! The calling convention: the frame that a run begins with, and the stop pointers that it leaves.

ghost use Rattle.std.specs.Prelude.{◌≡◌, ◌-◌, ◌<◌, ◌↔◌, length, IsTrue, IfSome, IfNone, Some};
ghost use Rattle.cairo_model.specs.Pie.Acceptance.{HasFrame, HasFrameCell, HasStopPointer, HasStopPointers, value_below};
ghost use Rattle.cairo_model.specs.Segments.{builtin_mask, builtin_segments, frame_segments};
ghost use Rattle.cairo_model.specs.Refusals.FirstFailing.{IsFirstFailing};
ghost use Rattle.cairo_model.specs.Pie.Records.{KeepsRules};
ghost use Rattle.cairo_model.specs.Machine.Values.{place};
ghost use Rattle.cairo_model.specs.Views.Machine.{datum};
ghost use Rattle.pie_replay.specs.Working.Replaying.{IsMemoryOf};

use crate::segments::{is_value, place_value, size_of, value_by, value_in};
use cairo_model::segments::{BUILTINS, EXECUTION, FRAME};
use cairo_model::{Pie, Place, Value, felt_of, sub};
use seg_memory::SegMemory;

/// The least index of a frame cell that is not as every run begins.
pub(crate) fn bad_frame_cell(memory: &SegMemory, pie: &Pie) -> Option<u32>
    requires { IsMemoryOf memory.now pie.now }
    ensures none { IfNone result (HasFrame builtin_mask pie.now.cells) }
    ensures some { IfSome result (λ i. IsFirstFailing (λ k. k < length (frame_segments builtin_mask)) (HasFrameCell builtin_mask pie.now.cells) i) }
{
    for index in 0..FRAME.len() as u32 {
        if !has_frame_cell(memory, pie, index) {
            return Some(index);
        }
    }
    None
}

fn has_frame_cell(memory: &SegMemory, pie: &Pie, index: u32) -> bool
    requires cells { IsMemoryOf memory.now pie.now }
    requires inside { index < length (frame_segments builtin_mask) }
    ensures { IsTrue result ↔ HasFrameCell builtin_mask pie.now.cells index }
{
    let at = Place {
        segment: EXECUTION,
        offset: index,
    };
    match value_in(memory, pie, at) {
        Some(found) => is_value(found, place_value(FRAME[index as usize], 0)),
        None => false,
    }
}

/// The least index of a stop pointer that is not the end of its segment, under this allocation pointer.
pub(crate) fn bad_stop_pointer(memory: &SegMemory, pie: &Pie, ap: Value) -> Option<u32>
    requires rules { KeepsRules pie.now }
    requires cells { IsMemoryOf memory.now pie.now }
    ensures none { IfNone result (HasStopPointers builtin_mask pie.now (datum ap)) }
    ensures some { IfSome result (λ i. IsFirstFailing (λ k. k < length (builtin_segments builtin_mask)) (HasStopPointer builtin_mask pie.now (datum ap)) i) }
{
    for i in 0..BUILTINS.len() as u32 {
        if !has_stop_pointer(memory, pie, ap, i) {
            return Some(i);
        }
    }
    None
}

fn has_stop_pointer(memory: &SegMemory, pie: &Pie, ap: Value, i: u32) -> bool
    requires rules { KeepsRules pie.now }
    requires cells { IsMemoryOf memory.now pie.now }
    requires index { i < length (builtin_segments builtin_mask) }
    ensures { IsTrue result ↔ HasStopPointer builtin_mask pie.now (datum ap) i }
{
    let segment = BUILTINS[i as usize];
    let end = Place {
        segment,
        offset: size_of(pie, segment),
    };
    ends_at(memory, pie, ap, BUILTINS.len() as u32 - i, end)
}

fn ends_at(memory: &SegMemory, pie: &Pie, ap: Value, distance: u32, end: Place) -> bool
    requires { IsMemoryOf memory.now pie.now }
    ensures { IsTrue result ↔ (value_below pie.now.cells (datum ap) distance ≡ Some (place end.segment end.offset)) }
{
    let Some(address) = sub(ap, Value::Number(felt_of(distance))) else {
        return false;
    };
    match value_by(memory, pie, address) {
        Some(found) => is_value(found, Value::At(end)),
        None => false,
    }
}
