//! What stands in the spans of a certificate.

ghost use Rattle.std.specs.Prelude.{◌≡◌, ◌↔◌, ◌+◌, ◌*◌, ◌<◌, ◌≤◌, ℕ, IsTrue, IfNone, IfSome, Some, length, slice_index};
ghost use Rattle.boot_program.specs.Faults.Rules.{IsThere, RangeCellAt, WholeInstanceAt};
ghost use Rattle.builtin_hash.specs.Instances.{cells_per_instance};
ghost use Rattle.cairo_model.specs.Machine.FieldMemories.{AddressesRise, cell_at};
ghost use Rattle.cairo_model.specs.Refusals.FirstFailing.{IsFirstFailing};
ghost use Rattle.goldi_field.specs.Numbers.{prime};
ghost use Rattle.row_checker.specs.Working.Instances.{InstanceStands};

use builtin_hash::{CELLS_PER_INSTANCE, check_instance};
use builtin_range::in_range;
use cairo_model::{Cells, felt_below};
use goldi_field::Felt;

// The cells of an instance, in the width of addresses.
const GROUP: u64 = CELLS_PER_INSTANCE as u64;

/// The least index from a start to below a stop at which no range cell stands.
pub(crate) fn bad_range_cell(cells: &Cells, start: Felt, stop: Felt) -> Option<u64>
    ensures none { IfNone result ((k : ℕ) → start.number + k < stop.number → RangeCellAt (cell_at cells.now) (start.number + k)) }
    ensures some { IfSome result (IsFirstFailing (λ k. start.number + k < stop.number) (λ k. RangeCellAt (cell_at cells.now) (start.number + k))) }
    ensures few { IfSome result (λ i. i ≤ length cells.now) }
{
    cells_rise(cells);
    for index in 0..stop.value().saturating_sub(start.value()) {
        if !has_range_cell(cells, start, index) {
            return Some(index);
        }
    }
    None
}

fn has_range_cell(cells: &Cells, start: Felt, index: u64) -> bool
    requires { start.number + index < prime }
    ensures { IsTrue result ↔ RangeCellAt (cell_at cells.now) (start.number + index) }
{
    match cells.get(felt_below(start.value() + index)) {
        Some(value) => in_range(value.value()),
        None => false,
    }
}

/// The least index from a start to below a stop at which there is no cell.
pub(crate) fn absent_cell(cells: &Cells, start: Felt, stop: Felt) -> Option<u64>
    ensures none { IfNone result ((k : ℕ) → start.number + k < stop.number → IsThere (cell_at cells.now (start.number + k))) }
    ensures some { IfSome result (IsFirstFailing (λ k. start.number + k < stop.number) (λ k. IsThere (cell_at cells.now (start.number + k)))) }
    ensures few { IfSome result (λ i. i ≤ length cells.now) }
{
    cells_rise(cells);
    for index in 0..stop.value().saturating_sub(start.value()) {
        if !has_cell(cells, start, index) {
            return Some(index);
        }
    }
    None
}

fn has_cell(cells: &Cells, start: Felt, index: u64) -> bool
    requires { start.number + index < prime }
    ensures { IsTrue result ↔ IsThere (cell_at cells.now (start.number + index)) }
{
    cells.get(felt_below(start.value() + index)).is_some()
}

/// The least number of a group of twenty from a start on that begins below a stop and is no whole instance below it.
pub(crate) fn bad_instance(cells: &Cells, start: Felt, stop: Felt) -> Option<u64>
    ensures none { IfNone result ((k : ℕ) → start.number + cells_per_instance * k < stop.number → WholeInstanceAt (cell_at cells.now) stop.number (start.number + cells_per_instance * k)) }
    ensures some { IfSome result (IsFirstFailing (λ k. start.number + cells_per_instance * k < stop.number) (λ k. WholeInstanceAt (cell_at cells.now) stop.number (start.number + cells_per_instance * k))) }
    ensures few { IfSome result (λ i. i ≤ length cells.now) }
{
    cells_rise(cells);
    for index in 0..stop.value().saturating_sub(start.value()).div_ceil(GROUP) {
        if !has_instance(cells, start, stop, index) {
            return Some(index);
        }
    }
    None
}

// Whether the twenty cells of this group are an instance that doesn't go past the stop.
fn has_instance(cells: &Cells, start: Felt, stop: Felt, index: u64) -> bool
    requires { start.number + cells_per_instance * index < stop.number }
    ensures { IsTrue result ↔ WholeInstanceAt (cell_at cells.now) stop.number (start.number + cells_per_instance * index) }
{
    let address = start.value() + GROUP * index;
    if address + GROUP > stop.value() {
        return false;
    }
    is_instance(cells, address)
}

fn is_instance(cells: &Cells, address: u64) -> bool
    requires { address + cells_per_instance < prime }
    ensures { IsTrue result ↔ InstanceStands (cell_at cells.now) address }
{
    match twenty_numbers(cells, address) {
        Some(numbers) => check_instance(&numbers),
        None => false,
    }
}

// The numbers of the twenty cells from an address on, if each of them is there.
fn twenty_numbers(cells: &Cells, address: u64) -> Option<[u64; CELLS_PER_INSTANCE]>
    requires { address + cells_per_instance < prime }
    ensures twenty { IfSome result (λ numbers. length numbers ≡ cells_per_instance) }
    ensures some { IfSome result (λ numbers. (k : ℕ) → k < cells_per_instance → cell_at cells.now (address + k) ≡ Some (slice_index numbers k)) }
    ensures none { IfNone result (¬ ((k : ℕ) → k < cells_per_instance → IsThere (cell_at cells.now (address + k)))) }
{
    let mut numbers = [0; CELLS_PER_INSTANCE];
    for k in 0..CELLS_PER_INSTANCE {
        let Some(value) = cells.get(felt_below(address + k as u64)) else {
            return None;
        };
        numbers[k] = value.value();
    }
    Some(numbers)
}

/// For proofs alone: the addresses of cells rise, so an index before which all have cells is no greater than their number.
pub(crate) fn cells_rise(cells: &Cells)
    ensures { AddressesRise cells.now }
{
    let _cells = cells.as_slice();
}
