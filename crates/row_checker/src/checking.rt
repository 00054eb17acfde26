ghost use Rattle.std.specs.Prelude.{◌≡◌, ◌≢◌, ◌<◌, ◌≤◌, ◌^◌, IfNone, IfOk, IfSome, Err, is_ok, length, map, true};
ghost use Rattle.boot_program.specs.Faults.Causes.{AcceptsRun, IsFirstRunFault};
ghost use Rattle.boot_program.specs.Faults.Records.{fault_cause, fault_number};
ghost use Rattle.cairo_model.specs.Views.Machine.{field_registers};
ghost use Rattle.row_checker.specs.Working.Stages.{EachRowLeads, IsRowAnswer, KeepsFrame, KeepsRun, KeepsSpans, Passes};

use crate::boot::missing_word;
use crate::chunks::first_bad;
use crate::frame::{broken_end, broken_start};
use crate::rows::cause_at;
use crate::spans::{absent_cell, bad_instance, bad_range_cell};
use boot_program::{RowCause, RunFault};
use cairo_model::{Cells, Cert, End, FieldState, is_certificate};
use std::alloc::{AllocError, Global};
use std::thread::Threads;

/// Whether the machine accepts the certificate, and one of a batch is of the bootloader's run, or else the first fault
/// (docs/CERTIFICATE.md), whatever the number of chunks. With one chunk it takes no memory.
pub fn check_run(
    rt: &(impl Threads + Sync),
    alloc: Global,
    cert: &Cert,
    chunks: usize,
) -> Result<(), End<RunFault>>
    requires { 1 ≤ chunks }
    ensures accepted { IfOk result (λ _. AcceptsRun cert.now) }
    // So no fault applies where it is accepted (`accepted_has_no_fault`), and one is named where it isn't.
    ensures refused { (e : RunFault) → result ≡ Err (End.Refused e) → IsFirstRunFault cert.now (fault_cause e) }
    ensures no_memory { chunks ≡ 1 → result ≢ Err End.OutOfMemory }
{
    walked(rt, alloc, cert, chunks)?;
    outputs_there(cert)
}

/// The faults before those of the outputs.
pub(crate) fn walked(
    rt: &(impl Threads + Sync),
    alloc: Global,
    cert: &Cert,
    chunks: usize,
) -> Result<(), End<RunFault>>
    requires { 1 ≤ chunks }
    ensures kept { IfOk result (λ _. KeepsRun cert.now) }
    ensures passes { IfOk result (λ _. Passes cert.now 7) }
    ensures refused { (e : RunFault) → result ≡ Err (End.Refused e) → IsFirstRunFault cert.now (fault_cause e) }
    ensures early { (e : RunFault) → result ≡ Err (End.Refused e) → fault_number (fault_cause e) < 7 }
    ensures no_memory { chunks ≡ 1 → result ≢ Err End.OutOfMemory }
{
    if let Some(fault) = frame_fault(cert) {
        return Err(End::Refused(fault));
    }
    if let Some(fault) = spans_fault(cert) {
        return Err(End::Refused(fault));
    }
    rows_lead(rt, alloc, cert, chunks)
}

// The first fault of the bootloader's words, the start or the end.
fn frame_fault(cert: &Cert) -> Option<RunFault>
    ensures kept { IfNone result (KeepsFrame cert.now) }
    ensures passes { IfNone result (Passes cert.now 4) }
    ensures refused { IfSome result (λ e. IsFirstRunFault cert.now (fault_cause e)) }
    ensures early { IfSome result (λ e. fault_number (fault_cause e) < 7) }
{
    if let Some(address) = missing_word(cert) {
        return Some(RunFault::Boot(address));
    }
    if let Some(k) = broken_start(cert) {
        return Some(RunFault::Start(k));
    }
    if let Some(k) = broken_end(cert) {
        return Some(RunFault::End(k));
    }
    None
}

// The first fault of the range span, or else of the hash span.
fn spans_fault(cert: &Cert) -> Option<RunFault>
    requires passed { Passes cert.now 4 }
    ensures kept { IfNone result (KeepsSpans cert.now) }
    ensures passes { IfNone result (Passes cert.now 6) }
    ensures refused { IfSome result (λ e. IsFirstRunFault cert.now (fault_cause e)) }
    ensures early { IfSome result (λ e. fault_number (fault_cause e) < 7) }
{
    is_certificate(cert);
    if let Some(index) = bad_range_cell(&cert.cells, cert.range.start, cert.range.stop) {
        return Some(RunFault::Range(index as u32));
    }
    if let Some(index) = bad_instance(&cert.cells, cert.hash.start, cert.hash.stop) {
        return Some(RunFault::Hash(index as u32));
    }
    None
}

fn rows_lead(
    rt: &(impl Threads + Sync),
    alloc: Global,
    cert: &Cert,
    chunks: usize,
) -> Result<(), End<RunFault>>
    requires some { 1 ≤ chunks }
    requires passed { Passes cert.now 6 }
    requires kept { KeepsFrame cert.now }
    ensures rows { IfOk result (λ _. EachRowLeads cert.now) }
    ensures passes { IfOk result (λ _. Passes cert.now 7) }
    ensures refused { (e : RunFault) → result ≡ Err (End.Refused e) → IsFirstRunFault cert.now (fault_cause e) }
    ensures early { (e : RunFault) → result ≡ Err (End.Refused e) → fault_number (fault_cause e) < 7 }
    ensures no_memory { chunks ≡ 1 → result ≢ Err End.OutOfMemory }
{
    match bad_row(rt, alloc, &cert.cells, cert.states.as_slice(), chunks) {
        Ok(Some((row, cause))) => Err(End::Refused(RunFault::Row(row, cause))),
        Ok(None) => Ok(()),
        Err(AllocError) => Err(End::OutOfMemory),
    }
}

// The first row that doesn't lead to the next state, and why.
fn bad_row(
    rt: &(impl Threads + Sync),
    alloc: Global,
    memory: &Cells,
    states: &[FieldState],
    chunks: usize,
) -> Result<Option<(u32, RowCause)>, AllocError>
    requires some { 1 ≤ chunks }
    requires state { 0 < length states.now }
    requires few { length states.now < 2 ^ 32 }
    ensures answer { IfOk result (IsRowAnswer memory.now (map field_registers states.now)) }
    ensures one_chunk { chunks ≡ 1 → is_ok result ≡ true }
{
    match first_bad(rt, alloc, memory, states, chunks)? {
        Some(row) => Ok(Some((row as u32, cause_at(memory, states, row)))),
        None => Ok(None),
    }
}

// That each address of the output span has a cell.
fn outputs_there(cert: &Cert) -> Result<(), End<RunFault>>
    requires passed { Passes cert.now 7 }
    requires kept { KeepsRun cert.now }
    ensures accepted { IfOk result (λ _. AcceptsRun cert.now) }
    ensures refused { (e : RunFault) → result ≡ Err (End.Refused e) → IsFirstRunFault cert.now (fault_cause e) }
    ensures no_memory { result ≢ Err End.OutOfMemory }
{
    is_certificate(cert);
    match absent_cell(&cert.cells, cert.output.start, cert.output.stop) {
        Some(index) => Err(End::Refused(RunFault::Output(index as u32, None, None))),
        None => Ok(()),
    }
}
