//! The segments of the builtins.

ghost use Rattle.std.specs.Prelude.{◌≡◌, ◌+◌, ◌*◌, ◌<◌, ◌↔◌, ℕ, IsTrue, IfSome, IfNone, Some, length, slice_index};
ghost use Rattle.builtin_hash.specs.Instances.{cells_per_instance};
ghost use Rattle.cairo_model.specs.Limits.{offset_limit};
ghost use Rattle.cairo_model.specs.Segments.{hash_segment, range_segment};
ghost use Rattle.cairo_model.specs.Refusals.FirstFailing.{IsFirstFailing};
ghost use Rattle.cairo_model.specs.Pie.Records.{segment_size, value_at, KeepsRules};
ghost use Rattle.cairo_model.specs.Refusals.ReplayRefusals.{HasInstance, HasNumber, HasRangeCell};
ghost use Rattle.cairo_model.specs.Machine.Values.{number};
ghost use Rattle.pie_replay.specs.Working.Replaying.{IsMemoryOf};

use crate::segments::{number_at, size_of};
use builtin_hash::{CELLS_PER_INSTANCE, check_instance};
use builtin_range::in_range;
use cairo_model::Pie;
use cairo_model::segments::{HASH, RANGE};
use seg_memory::SegMemory;

// The cells of an instance, in the width of offsets.
const GROUP: u32 = CELLS_PER_INSTANCE as u32;

/// The least offset of the range segment, below its size, at which no range cell stands.
pub(crate) fn bad_range_cell(memory: &SegMemory, pie: &Pie) -> Option<u32>
    requires rules { KeepsRules pie.now }
    requires cells { IsMemoryOf memory.now pie.now }
    ensures none { IfNone result ((k : ℕ) → k < segment_size pie.now range_segment → HasRangeCell pie.now.cells k) }
    ensures some { IfSome result (λ i. IsFirstFailing (λ k. k < segment_size pie.now range_segment) (HasRangeCell pie.now.cells) i) }
{
    for offset in 0..size_of(pie, RANGE) {
        if !has_range_cell(memory, pie, offset) {
            return Some(offset);
        }
    }
    None
}

fn has_range_cell(memory: &SegMemory, pie: &Pie, offset: u32) -> bool
    requires cells { IsMemoryOf memory.now pie.now }
    requires near { offset < offset_limit }
    ensures { IsTrue result ↔ HasRangeCell pie.now.cells offset }
{
    match number_at(memory, pie, RANGE, offset) {
        Some(n) => in_range(n.value()),
        None => false,
    }
}

/// The least index of twenty cells in the hash segment, of which some are below its size, that are no whole instance.
pub(crate) fn bad_instance(memory: &SegMemory, pie: &Pie) -> Option<u32>
    requires rules { KeepsRules pie.now }
    requires cells { IsMemoryOf memory.now pie.now }
    ensures none { IfNone result ((k : ℕ) → cells_per_instance * k < segment_size pie.now hash_segment → HasInstance pie.now k) }
    ensures some { IfSome result (λ i. IsFirstFailing (λ k. cells_per_instance * k < segment_size pie.now hash_segment) (HasInstance pie.now) i) }
{
    for index in 0..size_of(pie, HASH).div_ceil(GROUP) {
        if !has_instance(memory, pie, index) {
            return Some(index);
        }
    }
    None
}

fn has_instance(memory: &SegMemory, pie: &Pie, index: u32) -> bool
    requires rules { KeepsRules pie.now }
    requires cells { IsMemoryOf memory.now pie.now }
    requires inside { cells_per_instance * index < segment_size pie.now hash_segment }
    ensures { IsTrue result ↔ HasInstance pie.now index }
{
    let start = GROUP * index;
    if start + GROUP > size_of(pie, HASH) {
        return false;
    }
    match twenty_numbers(memory, pie, start) {
        Some(numbers) => check_instance(&numbers),
        None => false,
    }
}

// The twenty numbers of the hash segment from an offset on, if they are there.
fn twenty_numbers(memory: &SegMemory, pie: &Pie, start: u32) -> Option<[u64; CELLS_PER_INSTANCE]>
    requires cells { IsMemoryOf memory.now pie.now }
    requires near { start + cells_per_instance < offset_limit }
    ensures twenty { IfSome result (λ numbers. length numbers ≡ cells_per_instance) }
    ensures some { IfSome result (λ numbers. (k : ℕ) → k < cells_per_instance → value_at pie.now.cells hash_segment (start + k) ≡ Some (number (slice_index numbers k))) }
    ensures none { IfNone result (¬ ((k : ℕ) → k < cells_per_instance → HasNumber pie.now.cells hash_segment (start + k))) }
{
    let mut numbers = [0; CELLS_PER_INSTANCE];
    for k in 0..CELLS_PER_INSTANCE {
        let Some(n) = number_at(memory, pie, HASH, start + k as u32) else {
            return None;
        };
        numbers[k] = n.value();
    }
    Some(numbers)
}
