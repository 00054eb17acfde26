//! Puts of deduced values: only where nothing stands, and only in the segments that may grow.

ghost use Rattle.std.specs.Prelude.{◌≡◌, ◌+◌, ◌<◌, ◌≤◌, Ok, Err, None, length, sum, slice_index, option_map, OnOk};
ghost use Rattle.cairo_model.specs.Limits.{most_cells};
ghost use Rattle.cairo_model.specs.Views.Machine.{datum};
ghost use Rattle.seg_memory.specs.Memory.{HoldsSame, cell_of};
ghost use Rattle.seg_runner.specs.Memories.{may_grow as growth_test, put_at as put_of, put_where_absent as put_absent_of, sizes_with};
ghost use Rattle.seg_runner.specs.Refusals.{over_size};
ghost use Rattle.seg_runner.specs.Views.{run_cause};
ghost use Rattle.seg_runner.specs.Working.Seen.{growing, place_datum};
ghost use Rattle.seg_runner.specs.Working.Running.{HasSevenSizes};

use crate::refusal::RunRefusal;
use cairo_model::limits::{LEAST_SEGMENTS, MOST_CELLS};
use cairo_model::segments::{EXECUTION, HASH};
use cairo_model::{End, Place, Value};
use seg_memory::SegMemory;
use std::alloc::Global;

/// Puts a value, if a rule gave one, where nothing stands, at the step of this number.
pub(crate) fn put_where_absent(
    alloc: Global,
    memory: &mut SegMemory,
    place: Place,
    value: Option<Value>,
    number: u32,
) -> Result<(), End<RunRefusal>>
    requires { HasSevenSizes memory.old }
    ensures ok { OnOk result (put_absent_of number (growing memory.old) (place_datum place) (option_map datum value) ≡ Ok (growing memory.new)) }
    ensures keeps { OnOk result (HasSevenSizes memory.new) }
    ensures refused { (e : RunRefusal) → result ≡ Err (End.Refused e) → put_absent_of number (growing memory.old) (place_datum place) (option_map datum value) ≡ Err (run_cause e) }
{
    if memory.get(place).is_some() {
        return Ok(());
    }
    match value {
        Some(value) => put_at(alloc, memory, place, value, number),
        None => Ok(()),
    }
}

/// Puts a value at a place where none stands.
#[tactic(auto, unfolding(crate::specs::Memories::put_at))]
pub(crate) fn put_at(
    alloc: Global,
    memory: &mut SegMemory,
    place: Place,
    value: Value,
    number: u32,
) -> Result<(), End<RunRefusal>>
    requires sizes { HasSevenSizes memory.old }
    requires absent { cell_of memory.old place.segment place.offset ≡ None }
    ensures ok { OnOk result (put_of number (growing memory.old) place.segment place.offset (datum value) ≡ Ok (growing memory.new)) }
    ensures keeps { OnOk result (HasSevenSizes memory.new) }
    ensures refused { (e : RunRefusal) → result ≡ Err (End.Refused e) → put_of number (growing memory.old) place.segment place.offset (datum value) ≡ Err (run_cause e) }
{
    if !may_grow(place.segment) {
        return Ok(());
    }
    make_room(alloc, memory, place, number)?;
    match memory.put(place, value) {
        Ok(()) => Ok(()),
        Err(_) => unreachable!(),
    }
}

fn may_grow(segment: u16) -> bool
    ensures { result ≡ growth_test segment }
{
    EXECUTION <= segment && segment <= HASH
}

// Raises the size of the place's segment, if it lies outside.
fn make_room(
    alloc: Global,
    memory: &mut SegMemory,
    place: Place,
    number: u32,
) -> Result<(), End<RunRefusal>>
    requires sizes { HasSevenSizes memory.old }
    requires there { place.segment < length memory.old.sizes }
    ensures sizes { OnOk result (memory.new.sizes ≡ sizes_with memory.old.sizes place.segment place.offset) }
    ensures in_all { OnOk result (sum memory.new.sizes ≤ most_cells) }
    ensures same { OnOk result (HoldsSame memory.old memory.new) }
    ensures over { (e : RunRefusal) → result ≡ Err (End.Refused e) → most_cells < sum (sizes_with memory.old.sizes place.segment place.offset) }
    ensures refused { (e : RunRefusal) → result ≡ Err (End.Refused e) → run_cause e ≡ over_size number }
{
    let size = size_in(memory, place.segment);
    if place.offset < size {
        return Ok(());
    }
    if size_in_all(memory) - size + place.offset + 1 > MOST_CELLS {
        return Err(End::Refused(RunRefusal::TooLarge(number)));
    }
    memory.grow(alloc, place.segment, place.offset + 1)?;
    Ok(())
}

/// The size of a segment in cells, 0 where there is none.
pub(crate) fn size_in(memory: &SegMemory, segment: u16) -> u32
    ensures { result ≡ slice_index memory.now.sizes segment }
{
    memory.size(segment).unwrap_or(0)
}

// The cells that the segments have room for, all together.
fn size_in_all(memory: &SegMemory) -> u32
    requires { HasSevenSizes memory.now }
    ensures { result ≡ sum memory.now.sizes }
{
    let mut total = 0;
    for segment in 0..LEAST_SEGMENTS as u16 {
        total += size_in(memory, segment);
    }
    total
}
