//! The first and the last state, and their frame.

ghost use Rattle.std.specs.Prelude.{◌≡◌, ◌↔◌, ◌<◌, ◌≤◌, ℕ, IsTrue, IfNone, IfSome, Some, length, option_map};
ghost use Rattle.boot_program.specs.Faults.Rules.{EndsBy, IsEndRule, IsStartRule, IsThere, KeepsEndRule, KeepsStartRule, StartsBy, end_rule, start_rule};
ghost use Rattle.cairo_model.specs.Certificate.Acceptance.{cell_below as below};
ghost use Rattle.cairo_model.specs.Certificate.Records.{batch};
ghost use Rattle.cairo_model.specs.Refusals.FirstFailing.{IsFirstFailing};
ghost use Rattle.cairo_model.specs.Views.Machine.{field_registers};

use crate::boot::holds;
use boot_program::{BOOT_END, BOOT_ENTRY};
use cairo_model::{Cells, Cert, FieldState, Kind, felt_of};
use goldi_field::Felt;

/// The least rule of the start that isn't kept.
pub(crate) fn broken_start(cert: &Cert) -> Option<u32>
    ensures none { IfNone result ((k : ℕ) → IsStartRule k → KeepsStartRule cert.now k) }
    ensures some { IfSome result (IsFirstFailing IsStartRule (KeepsStartRule cert.now)) }
    ensures state { IfNone result (0 < length cert.now.states) }
{
    let states = cert.states.as_slice();
    if states.is_empty() {
        return Some(0);
    }
    broken_by_first(cert, &states[0])
}

fn broken_by_first(cert: &Cert, first: &FieldState) -> Option<u32>
    ensures none { IfNone result ((k : ℕ) → IsStartRule k → StartsBy cert.now (field_registers first.now) (start_rule k)) }
    ensures some { IfSome result (IsFirstFailing IsStartRule (λ k. StartsBy cert.now (field_registers first.now) (start_rule k))) }
{
    for k in 0..9 {
        if !keeps_start_rule(cert, first, k) {
            return Some(k);
        }
    }
    None
}

fn keeps_start_rule(cert: &Cert, first: &FieldState, k: u32) -> bool
    requires { k ≤ 8 }
    ensures { IsTrue result ↔ StartsBy cert.now (field_registers first.now) (start_rule k) }
{
    let cells = &cert.cells;
    match k {
        1 => first.ap == first.fp,
        2 => has_below(cells, first.fp, 5, cert.output.start.value()),
        3 => has_below(cells, first.fp, 4, cert.range.start.value()),
        4 => has_below(cells, first.fp, 3, cert.hash.start.value()),
        5 => is_below(cells, first.fp, 2),
        6 => is_below(cells, first.fp, 1),
        7 => !is_batch(cert) || first.pc.value() == BOOT_ENTRY,
        8 => !is_batch(cert) || has_below(cells, first.fp, 1, BOOT_END),
        _ => true,
    }
}

/// The least rule of the end that isn't kept.
pub(crate) fn broken_end(cert: &Cert) -> Option<u32>
    requires { 0 < length cert.now.states }
    ensures none { IfNone result ((k : ℕ) → IsEndRule k → KeepsEndRule cert.now k) }
    ensures some { IfSome result (IsFirstFailing IsEndRule (KeepsEndRule cert.now)) }
{
    let states = cert.states.as_slice();
    broken_by_last(cert, &states[0], &states[states.len() - 1])
}

fn broken_by_last(cert: &Cert, first: &FieldState, last: &FieldState) -> Option<u32>
    ensures none { IfNone result ((k : ℕ) → IsEndRule k → EndsBy cert.now (field_registers first.now) (field_registers last.now) (end_rule k)) }
    ensures some { IfSome result (IsFirstFailing IsEndRule (λ k. EndsBy cert.now (field_registers first.now) (field_registers last.now) (end_rule k))) }
{
    for k in 1..6 {
        if !keeps_end_rule(cert, first, last, k) {
            return Some(k);
        }
    }
    None
}

fn keeps_end_rule(cert: &Cert, first: &FieldState, last: &FieldState, k: u32) -> bool
    requires { IsEndRule k }
    ensures { IsTrue result ↔ EndsBy cert.now (field_registers first.now) (field_registers last.now) (end_rule k) }
{
    let cells = &cert.cells;
    match k {
        1 => has_below(cells, first.fp, 1, last.pc.value()),
        2 => has_below(cells, first.fp, 2, last.fp.value()),
        3 => has_below(cells, last.ap, 3, cert.output.stop.value()),
        4 => has_below(cells, last.ap, 2, cert.range.stop.value()),
        _ => has_below(cells, last.ap, 1, cert.hash.stop.value()),
    }
}

fn is_batch(cert: &Cert) -> bool
    ensures { IsTrue result ↔ (cert.now.kind ≡ batch) }
{
    matches!(cert.kind, Kind::Batch)
}

fn cell_below(cells: &Cells, address: Felt, distance: u32) -> Option<Felt>
    ensures { option_map (λ f. f.number) result ≡ below cells.now address.number distance }
{
    cells.get(address.sub(felt_of(distance)))
}

fn has_below(cells: &Cells, address: Felt, distance: u32, number: u64) -> bool
    ensures { IsTrue result ↔ (below cells.now address.number distance ≡ Some number) }
{
    holds(cell_below(cells, address, distance), number)
}

fn is_below(cells: &Cells, address: Felt, distance: u32) -> bool
    ensures { IsTrue result ↔ IsThere (below cells.now address.number distance) }
{
    cell_below(cells, address, distance).is_some()
}
