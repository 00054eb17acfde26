ghost use Rattle.std.specs.Prelude.{◌≡◌, ◌≤◌, ◌*◌, length, true, None, option_map};
ghost use Rattle.cairo_model.specs.Limits.{most_segments, offset_limit};
ghost use Rattle.cairo_model.specs.Working.Answers.{Gives};
ghost use Rattle.cairo_model.specs.Views.Machine.{datum};
ghost use Rattle.cairo_model.specs.Views.Pie.{memory_cell};
ghost use Rattle.cairo_model.specs.Pie.Files.{cell_size};
ghost use Rattle.cairo_model.specs.Pie.Records.{place_number as number_of_place};
ghost use Rattle.cairo_model.specs.Working.Keys.{is_after as comes_after};
ghost use Rattle.pie_format.specs.Working.Reading.{number_value, place_value, value_in, is_inside as stands_inside, cell_in as cell_with, cell_at, cells_at, all_below};
ghost use Rattle.pie_format.specs.Working.ReadingViews.{memory_cells};

use crate::file_parts::{CELL_BYTES, number16, number32, number64};
use cairo_model::limits::OFFSET_LIMIT;
use cairo_model::{End, PieCell, Place, ReadRefusal, Value};
use goldi_field::Felt;
use std::alloc::Global;

/// So many cells one after the other, and the bytes after them.
pub(crate) fn file_cells<'a>(
    alloc: Global,
    sizes: &[u32],
    count: u32,
    bytes: &'a [u8],
) -> Result<(Vec<PieCell>, &'a [u8]), End<ReadRefusal>>
    requires few { length sizes.now ≤ most_segments }
    requires small { all_below offset_limit sizes.now ≡ true }
    requires enough { cell_size * count ≤ length bytes.now }
    ensures { Gives (λ x. (memory_cells x.0.items, x.1.now)) result (cells_at sizes.now 0 None count bytes.now) }
{
    let mut cells = Vec::with_capacity(alloc, count as usize)?;
    let mut before = None;
    let mut rest = bytes;
    for index in 0..count {
        let Some(cell) = cell_from(sizes, before, rest) else {
            return Err(End::Refused(ReadRefusal::BadCell(index)));
        };
        let (_, after) = rest.split_at(CELL_BYTES);
        before = Some(place_number(cell.place.segment, cell.place.offset));
        cells.push(cell)?;
        rest = after;
    }
    Ok((cells, rest))
}

fn cell_from(sizes: &[u32], before: Option<u64>, bytes: &[u8]) -> Option<PieCell>
    requires few { length sizes.now ≤ most_segments }
    requires small { all_below offset_limit sizes.now ≡ true }
    requires enough { cell_size ≤ length bytes.now }
    ensures { option_map memory_cell result ≡ cell_at sizes.now before bytes.now }
{
    let (segment, rest) = number16(bytes);
    let (offset, rest) = number32(rest);
    let (tag, rest) = number16(rest);
    let (payload, _) = number64(rest);
    let value = value_from(sizes.len(), tag, payload);
    cell_in(sizes, before, segment, offset, value)
}

fn cell_in(
    sizes: &[u32],
    before: Option<u64>,
    segment: u16,
    offset: u32,
    value: Option<Value>,
) -> Option<PieCell>
    requires { all_below offset_limit sizes.now ≡ true }
    ensures { option_map memory_cell result ≡ cell_with sizes.now before segment offset (option_map datum value) }
{
    if !is_inside(sizes, segment, offset) || !is_after(before, place_number(segment, offset)) {
        return None;
    }
    let place = Place { segment, offset };
    match value {
        Some(value) => Some(PieCell { place, value }),
        None => None,
    }
}

fn is_inside(sizes: &[u32], segment: u16, offset: u32) -> bool
    ensures { result ≡ stands_inside sizes.now segment offset }
{
    let segment = segment as usize;
    segment < sizes.len() && offset < sizes[segment]
}

fn is_after(before: Option<u64>, number: u64) -> bool
    ensures { result ≡ comes_after before number }
{
    match before {
        Some(last) => last < number,
        None => true,
    }
}

pub(crate) fn place_number(segment: u16, offset: u32) -> u64
    ensures { result ≡ number_of_place segment offset }
{
    u64::from(segment) * 0x1_0000_0000 + u64::from(offset)
}

fn value_from(segments: usize, tag: u16, payload: u64) -> Option<Value>
    requires { segments ≤ most_segments }
    ensures { option_map datum result ≡ value_in segments tag payload }
{
    match tag {
        0 => number_from(payload),
        1 => place_from(segments, payload / 0x1_0000_0000, payload % 0x1_0000_0000),
        _ => None,
    }
}

fn number_from(number: u64) -> Option<Value>
    ensures { option_map datum result ≡ number_value number }
{
    match Felt::new(number) {
        Some(felt) => Some(Value::Number(felt)),
        None => None,
    }
}

fn place_from(segments: usize, segment: u64, offset: u64) -> Option<Value>
    requires { segments ≤ most_segments }
    ensures { option_map datum result ≡ place_value segments segment offset }
{
    if segment < segments as u64 && offset < u64::from(OFFSET_LIMIT) {
        Some(Value::At(Place {
            segment: segment as u16,
            offset: offset as u32,
        }))
    } else {
        None
    }
}
