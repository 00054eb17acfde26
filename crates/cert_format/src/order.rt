ghost use Rattle.std.specs.Prelude.{◌≡◌, ◌-◌, None, map};
ghost use Rattle.cairo_model.specs.Machine.FieldMemories.{field_cell};
ghost use Rattle.cairo_model.specs.Working.Keys.{is_after as comes_after};
ghost use Rattle.cert_format.specs.Reading.{falls as stop_falls, fallen_at, order_fault as order_fault_of};
ghost use Rattle.cert_format.specs.Feeding.{draft_of};
ghost use Rattle.cert_format.specs.Working.DraftViews.{partial as partial_of, stretch};

use crate::partial::Partial;
use crate::parts::CELL_BYTES;
use goldi_field::Felt;

/// Where the stops of the three spans are in the file.
const OUTPUT_STOP: u64 = 17;

const RANGE_STOP: u64 = 33;

const HASH_STOP: u64 = 49;

/// Where the first stop is that is below its start, or the first address that isn't above the one before.
pub(crate) fn order_fault(whole: u64, partial: &Partial) -> Option<u64>
    ensures { result ≡ order_fault_of whole (draft_of (whole - partial.now.marks_end) (partial_of partial.now)) }
{
    let front = partial.front;
    if falls(front.output) {
        return Some(OUTPUT_STOP);
    }
    if falls(front.range) {
        return Some(RANGE_STOP);
    }
    if falls(front.hash) {
        return Some(HASH_STOP);
    }
    let left = whole.saturating_sub(partial.marks_end);
    fallen_address(whole, left.saturating_sub(4), partial.cells.as_slice())
}

fn falls(span: (Felt, Felt)) -> bool
    ensures { result ≡ stop_falls (stretch span) }
{
    span.1.value() < span.0.value()
}

fn fallen_address(whole: u64, from_cells: u64, cells: &[(Felt, Felt)]) -> Option<u64>
    ensures { result ≡ fallen_at whole from_cells None (map field_cell cells.now) }
{
    let mut before = None;
    let mut left = from_cells;
    for (address, _) in cells {
        let number = address.value();
        if !is_after(before, number) {
            return Some(whole.saturating_sub(left));
        }
        before = Some(number);
        left = left.saturating_sub(CELL_BYTES as u64);
    }
    None
}

fn is_after(before: Option<u64>, number: u64) -> bool
    ensures { result ≡ comes_after before number }
{
    match before {
        Some(last) => last < number,
        None => true,
    }
}
