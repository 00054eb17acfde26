ghost use Rattle.std.specs.Prelude.{IfOk};
ghost use Rattle.desk_core.specs.DeskRecords.{plain_of};
ghost use Rattle.batch_workers.specs.Works.{IsIdle};

use crate::changes::{Change, changed};
use batch_runner::{BootMaker, Maker};
use batch_workers::{WorkEnd, work_plain};
use boot_program::{Parcel, RowCause, RunFault};
use cairo_model::{Cert, Place, felt_of};
use desk_core::{Desk, Offer, Phase, Reply};
use hex::decode;
use pie_replay::admit;
use std::alloc::{AllocError, Global};
use std::test::Fail;
use worked_vectors::files::{EMPTY, FIVE, RANGE_7};

// The pass of the worker.
const WORKER: u32 = 1;

// A desk with this PIE waiting.
fn desk_with(alloc: Global, file: &str) -> Result<Desk, Fail>
    ensures { IfOk result (λ d. IsIdle 1 (plain_of d)) }
{
    let mut desk = Desk::new(alloc, 1)?;
    let checked = admit(alloc, decode(alloc, file)?.as_slice())?;
    let _ = desk.submit(alloc, 0, 0, Offer::Accepted(checked))?;
    Ok(desk)
}

#[test]
fn a_worker_registers_all_that_waits(rt: HostRuntime) -> Result<(), Fail> {
    let alloc = rt.alloc();
    let mut desk = desk_with(alloc, FIVE)?;
    let end = work_plain(&rt, alloc, &mut desk, WORKER, &BootMaker);
    assert!(rt; matches!(end, WorkEnd::Drained));
    assert_eq!(rt; desk.batches().len(), 1);
    assert_eq!(rt; desk.batches()[0].phase, Phase::Registered);
    let entries = desk.entries();
    assert_eq!(rt; entries.len(), 7);
    assert_eq!(rt; entries[5].reply, Reply::NothingSealed);
    assert_eq!(rt; entries[6].reply, Reply::NothingWaiting(false));
    let five = admit(alloc, decode(alloc, FIVE)?.as_slice())?;
    assert!(rt; desk.registry().holds(five.fact()));
    Ok(())
}

// What is wrong with the bootloader's certificate after one change.
const ROWS: [(&str, Change, RunFault); 10] = [
    (FIVE, Change::IsAlone, RunFault::Boot(1)),
    (FIVE, Change::FirstWord, RunFault::Boot(1)),
    (FIVE, Change::NoStates, RunFault::Start(0)),
    (FIVE, Change::LastStateLeftOut, RunFault::End(1)),
    (FIVE, Change::RangeStop, RunFault::End(4)),
    (RANGE_7, Change::RangeCell, RunFault::Range(0)),
    (FIVE, Change::HashCell, RunFault::Hash(0)),
    (FIVE, Change::FramePointer, RunFault::Row(0, RowCause::Next)),
    (
        FIVE,
        Change::NoMarks,
        RunFault::Task(
            0,
            Place {
                segment: 6,
                offset: 0,
            },
        ),
    ),
    (
        FIVE,
        Change::MarkRow,
        RunFault::Task(
            0,
            Place {
                segment: 6,
                offset: 0,
            },
        ),
    ),
];

// Gives the bootloader's certificate of a parcel with one change.
#[derive(Debug, Drop)]
struct ChangingMaker {
    change: Change,
}

impl Maker for ChangingMaker {
    ghost honest = { λ m. ⊥ };

    ghost gives = { λ m parcel cert. Unit {0} };

    fn make(&self, alloc: Global, parcel: &Parcel) -> Result<Cert, AllocError> {
        changed(alloc, &BootMaker.make(alloc, parcel)?, self.change)
    }
}

#[test]
fn a_dishonest_makers_batch_is_sealed_again(rt: HostRuntime) -> Result<(), Fail> {
    for (file, change, wanted) in ROWS {
        let mut desk = desk_with(rt.alloc(), file)?;
        let maker = ChangingMaker { change };
        let WorkEnd::Rejected(0, fault) = work_plain(&rt, rt.alloc(), &mut desk, WORKER, &maker)
        else {
            assert!(rt; false, "not rejected");
            return Ok(());
        };
        assert_eq!(rt; fault, wanted);
        assert_eq!(rt; desk.batches().len(), 1);
        assert_eq!(rt; desk.batches()[0].phase, Phase::Sealed);
        assert!(rt; desk.registry().sorted(rt.alloc())?.is_empty());
    }
    Ok(())
}

// Gives the certificate of one parcel for every other.
#[derive(Debug, Drop)]
struct SameMaker {
    parcel: Parcel,
}

impl Maker for SameMaker {
    ghost honest = { λ m. ⊥ };

    ghost gives = { λ m parcel cert. Unit {0} };

    fn make(&self, alloc: Global, _parcel: &Parcel) -> Result<Cert, AllocError> {
        BootMaker.make(alloc, &self.parcel)
    }
}

#[test]
fn a_certificate_of_another_parcel_is_rejected(rt: HostRuntime) -> Result<(), Fail> {
    let alloc = rt.alloc();
    let empty = admit(alloc, decode(alloc, EMPTY)?.as_slice())?;
    let _empty = empty.states();
    let mut tasks = Vec::new(alloc);
    tasks.push(empty)?;
    let maker = SameMaker {
        parcel: Parcel { batch: 0, tasks },
    };
    let mut desk = desk_with(alloc, FIVE)?;
    let end = work_plain(&rt, alloc, &mut desk, WORKER, &maker);
    let wanted = RunFault::Output(1, Some(felt_of(9)), Some(felt_of(10)));
    assert!(rt; matches!(end, WorkEnd::Rejected(0, fault) if fault == wanted));
    assert!(rt; desk.registry().sorted(alloc)?.is_empty());
    Ok(())
}
