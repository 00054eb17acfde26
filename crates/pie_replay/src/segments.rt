ghost use Rattle.std.specs.Prelude.{◌≡◌, ◌<◌, ◌↔◌, ℕ, map, IsTrue, IfOk, IfSome, IfNone, Some, Err, option_map};
ghost use Rattle.cairo_model.specs.Limits.{offset_limit};
ghost use Rattle.cairo_model.specs.Pie.Acceptance.{HoldsNumbers};
ghost use Rattle.cairo_model.specs.Pie.Records.{memory_of, value_at, segment_size, KeepsRules};
ghost use Rattle.cairo_model.specs.Refusals.ReplayRefusals.{HasNumber, IsFirstGap};
ghost use Rattle.cairo_model.specs.Machine.Values.{number, place};
ghost use Rattle.cairo_model.specs.Views.Machine.{datum};
ghost use Rattle.pie_replay.specs.Working.Replaying.{IsMemoryOf};

use cairo_model::{End, Pie, Place, Value};
use goldi_field::Felt;
use seg_memory::SegMemory;
use std::alloc::Global;

/// The size of a segment in cells, 0 where there is none.
pub(crate) fn size_of(pie: &Pie, segment: u16) -> u32
    ensures { result ≡ segment_size pie.now segment }
{
    match pie.sizes.get(segment as usize) {
        Some(size) => *size,
        None => 0,
    }
}

/// The value that stands at a place.
pub(crate) fn value_in(memory: &SegMemory, pie: &Pie, place: Place) -> Option<Value>
    requires { IsMemoryOf memory.now pie.now }
    ensures { option_map datum result ≡ value_at pie.now.cells place.segment place.offset }
{
    memory.get(place)
}

/// The value that stands at an address.
pub(crate) fn value_by(memory: &SegMemory, pie: &Pie, address: Value) -> Option<Value>
    requires { IsMemoryOf memory.now pie.now }
    ensures { option_map datum result ≡ memory_of pie.now.cells (datum address) }
{
    memory.at(address)
}

/// The number that stands at a place, if one does.
pub(crate) fn number_at(memory: &SegMemory, pie: &Pie, segment: u16, offset: u32) -> Option<Felt>
    requires cells { IsMemoryOf memory.now pie.now }
    requires near { offset < offset_limit }
    ensures some { IfSome result (λ n. value_at pie.now.cells segment offset ≡ Some (number n.number)) }
    ensures none { IfNone result (¬ HasNumber pie.now.cells segment offset) }
{
    match value_in(memory, pie, Place { segment, offset }) {
        Some(Value::Number(n)) => Some(n),
        _ => None,
    }
}

/// The numbers of a segment, or the least offset below its size at which there is none.
pub(crate) fn numbers_in(
    alloc: Global,
    memory: &SegMemory,
    pie: &Pie,
    segment: u16,
) -> Result<Vec<Felt>, End<u32>>
    requires rules { KeepsRules pie.now }
    requires cells { IsMemoryOf memory.now pie.now }
    ensures full { IfOk result (λ numbers. HoldsNumbers pie.now.cells segment (segment_size pie.now segment) (map (λ f. f.number) numbers.items)) }
    ensures gap { (i : ℕ) → result ≡ Err (End.Refused i) → IsFirstGap pie.now segment i }
{
    let mut numbers = Vec::with_capacity(alloc, size_of(pie, segment) as usize)?;
    for offset in 0..size_of(pie, segment) {
        match number_at(memory, pie, segment, offset) {
            Some(n) => numbers.push(n)?,
            None => return Err(End::Refused(offset)),
        }
    }
    Ok(numbers)
}

/// Whether two values are the same number or the same place.
pub(crate) fn is_value(a: Value, b: Value) -> bool
    ensures { IsTrue result ↔ (datum a ≡ datum b) }
{
    a == b
}

pub(crate) fn place_value(segment: u16, offset: u32) -> Value
    requires { offset < offset_limit }
    ensures { datum result ≡ place segment offset }
{
    Value::At(Place { segment, offset })
}
