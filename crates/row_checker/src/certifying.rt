ghost use Rattle.std.specs.Prelude.{◌≡◌, ◌≤◌, ℕ, IfOk, Err, length};
ghost use Rattle.boot_program.specs.Batch.Acceptance.{AcceptsBatch};
ghost use Rattle.boot_program.specs.Batch.Standing.{AllStandIn};
ghost use Rattle.boot_program.specs.Batch.Limits.{most_batch_tasks};
ghost use Rattle.boot_program.specs.Faults.Causes.{IsFirstBatchFault, IsOutputIndex, PrintsAt, wanted_of};
ghost use Rattle.boot_program.specs.Faults.Records.{fault_cause};
ghost use Rattle.boot_program.specs.Faults.Tasks.{IsNumbered, TaskStands};
ghost use Rattle.row_checker.specs.Working.Stages.{BatchPasses, KeepsBatchRun};

use crate::checking::walked;
use crate::outputs::{batch_numbers, other_output, printed_at, wanted_at};
use crate::tasks::missing_task;
use boot_program::{BOOT_ENTRY, Certified, Parcel, RunFault};
use cairo_model::{Cert, Checked, End, Kind, is_certificate};
use std::alloc::Global;
use std::thread::Threads;

/// The certificate with the parcel, where it is accepted as a batch of these tasks and each of them stands in it, or else
/// the first fault (docs/CERTIFICATE.md), whatever the number of chunks. On a fault both are dropped.
pub fn certify(
    rt: &(impl Threads + Sync),
    alloc: Global,
    cert: Cert,
    parcel: Parcel,
    chunks: usize,
) -> Result<Certified, End<RunFault>>
    requires { 1 ≤ chunks }
    ensures kept { IfOk result (λ certified. (certified.cert ≡ cert) × (certified.parcel ≡ parcel)) }
    ensures accepted { IfOk result (λ _. AcceptsBatch cert parcel.tasks × AllStandIn cert parcel.tasks) }
    // So no fault applies where both hold (`certified_has_no_fault`), and one is named where they don't.
    ensures refused { (e : RunFault) → result ≡ Err (End.Refused e) → IsFirstBatchFault cert parcel.tasks (fault_cause e) }
{
    examine(rt, alloc, &cert, &parcel, chunks)?;
    Ok(Certified::of(cert, parcel))
}

fn examine(
    rt: &(impl Threads + Sync),
    alloc: Global,
    cert: &Cert,
    parcel: &Parcel,
    chunks: usize,
) -> Result<(), End<RunFault>>
    requires { 1 ≤ chunks }
    ensures accepted { IfOk result (λ _. AcceptsBatch cert.now parcel.now.tasks) }
    ensures stand { IfOk result (λ _. AllStandIn cert.now parcel.now.tasks) }
    ensures refused { (e : RunFault) → result ≡ Err (End.Refused e) → IsFirstBatchFault cert.now parcel.now.tasks (fault_cause e) }
{
    let tasks = parcel.tasks.as_slice();
    run_of_batch(rt, alloc, cert, tasks, chunks)?;
    outputs_stand(alloc, cert, tasks)?;
    tasks_stand(cert, tasks)
}

// The faults before those of the outputs, of a certificate of a batch.
fn run_of_batch(
    rt: &(impl Threads + Sync),
    alloc: Global,
    cert: &Cert,
    tasks: &[Checked],
    chunks: usize,
) -> Result<(), End<RunFault>>
    requires { 1 ≤ chunks }
    ensures kept { IfOk result (λ _. KeepsBatchRun cert.now) }
    ensures passes { IfOk result (λ _. BatchPasses cert.now tasks.now 7) }
    ensures refused { (e : RunFault) → result ≡ Err (End.Refused e) → IsFirstBatchFault cert.now tasks.now (fault_cause e) }
{
    match cert.kind {
        Kind::Alone => Err(End::Refused(RunFault::Boot(BOOT_ENTRY))),
        Kind::Batch => walked(rt, alloc, cert, chunks),
    }
}

fn outputs_stand(alloc: Global, cert: &Cert, tasks: &[Checked]) -> Result<(), End<RunFault>>
    requires few { length tasks.now ≤ most_batch_tasks }
    requires passed { BatchPasses cert.now tasks.now 7 }
    ensures prints { IfOk result (λ _. (k : ℕ) → IsOutputIndex cert.now (wanted_of tasks.now) k → PrintsAt cert.now (wanted_of tasks.now) k) }
    ensures passes { IfOk result (λ _. BatchPasses cert.now tasks.now 8) }
    ensures refused { (e : RunFault) → result ≡ Err (End.Refused e) → IsFirstBatchFault cert.now tasks.now (fault_cause e) }
{
    is_certificate(cert);
    let numbers = batch_numbers(alloc, tasks)?;
    let wanted = numbers.as_slice();
    match other_output(cert, wanted) {
        Some(index) => Err(End::Refused(RunFault::Output(
            index as u32,
            printed_at(cert, index),
            wanted_at(wanted, index),
        ))),
        None => Ok(()),
    }
}

fn tasks_stand(cert: &Cert, tasks: &[Checked]) -> Result<(), End<RunFault>>
    requires few { length tasks.now ≤ most_batch_tasks }
    requires passed { BatchPasses cert.now tasks.now 8 }
    ensures stand { IfOk result (λ _. (k : ℕ) → IsNumbered cert.now tasks.now k → TaskStands cert.now tasks.now k) }
    ensures refused { (e : RunFault) → result ≡ Err (End.Refused e) → IsFirstBatchFault cert.now tasks.now (fault_cause e) }
{
    is_certificate(cert);
    match missing_task(cert, tasks) {
        Some((index, place)) => Err(End::Refused(RunFault::Task(index as u32, place))),
        None => Ok(()),
    }
}
