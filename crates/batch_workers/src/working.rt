ghost use Rattle.std.specs.Prelude.{◌≡◌, List, Err, IfOk, None};
ghost use Rattle.cairo_model.specs.Pie.Records.{PieRecord};
ghost use Rattle.desk_core.specs.DeskRecords.{plain_of};
ghost use Rattle.desk_core.specs.Desks.{first_sealed};
ghost use Rattle.desk_core.specs.GoodDesks.{IsGoodDesk};
ghost use Rattle.desk_core.specs.Registrations.{pies_in};
ghost use Rattle.session_desk.specs.PassTurns.{StillGood};
ghost use Rattle.batch_workers.specs.Works.{IsFaulty, IsIdle, IsNotRejected, WorkDone, is_nothing as nothing_waits};
ghost use Rattle.batch_workers.specs.Working.Rounds.{BatchDone, HandedBack, HoldsAlone, NotCertified, RegisterDone, RoundDone, SealDone, rejecting_round, sealing_round};

use crate::round::Round;
use crate::work_end::WorkEnd;
use batch_runner::Maker;
use boot_program::{Certified, Parcel, RunFault};
use cairo_model::End;
use desk_core::{Desk, RegisterEnd, Reply};
use row_checker::{CHUNKS, certified_has_no_fault, certify};
use std::alloc::{AllocError, Global};
use std::thread::Threads;

/// How often it is tried again to give a batch back, where memory is wanted.
pub(crate) const MOST_RETRIES: u32 = 64;

/// Takes, makes, certifies and registers batches, and seals what waits, until no batch is sealed and no job waits
/// (docs/SERVICE.md). A batch whose certificate finds no memory is given back, and so is one whose certificate has a fault.
pub fn work_plain<R: Threads + Sync, M: Maker>(
    rt: &R,
    alloc: Global,
    desk: &mut Desk,
    pass: u32,
    maker: &M,
) -> WorkEnd
    requires idle { IsIdle pass (plain_of desk.old) }
    ensures done { WorkDone pass (M.honest maker.now) (M.gives maker.now) desk.old desk.new result }
    // So an honest maker, as BootMaker is, never has a batch rejected.
    ensures honest { M.honest maker.now → IsNotRejected result }
    ensures good { IsGoodDesk desk.old × IsGoodDesk desk.new }
{
    loop {
        match round(rt, alloc, desk, pass, maker) {
            Round::Went => {}
            Round::Idle => return WorkEnd::Drained,
            Round::Ended(end) => return end,
        }
    }
}

// Takes a batch and runs it, or else seals one.
fn round<R: Threads + Sync, M: Maker>(
    rt: &R,
    alloc: Global,
    desk: &mut Desk,
    pass: u32,
    maker: &M,
) -> Round
    requires idle { IsIdle pass (plain_of desk.old) }
    ensures done { RoundDone pass (M.honest maker.now) (M.gives maker.now) desk.old desk.new result }
    ensures good { StillGood desk.old desk.new }
{
    match desk.take(alloc, pass) {
        Err(AllocError) => Round::Ended(WorkEnd::OutOfMemory),
        Ok((_, Some(parcel))) => run_batch(rt, alloc, desk, pass, maker, parcel),
        Ok((_, None)) => seal_next(alloc, desk, pass),
    }
}

// Seals the next batch.
fn seal_next(alloc: Global, desk: &mut Desk, pass: u32) -> Round
    requires idle { IsIdle pass (plain_of desk.old) }
    requires none { first_sealed (plain_of desk.old) ≡ None }
    ensures done { SealDone pass desk.old desk.new result }
    ensures good { StillGood desk.old desk.new }
{
    match desk.seal(alloc, pass) {
        Err(AllocError) => Round::Ended(WorkEnd::OutOfMemory),
        Ok(reply) => sealed(&reply),
    }
}

// What a sealing with this reply came to.
fn sealed(reply: &Reply) -> Round
    ensures { result ≡ sealing_round (nothing_waits reply.now) }
{
    match reply {
        Reply::NothingWaiting(_) => Round::Idle,
        _ => Round::Went,
    }
}

// Has the certificate of the batch in hand made and registers it, or else gives the batch back.
fn run_batch<R: Threads + Sync, M: Maker>(
    rt: &R,
    alloc: Global,
    desk: &mut Desk,
    pass: u32,
    maker: &M,
    parcel: Parcel,
) -> Round
    requires holds { HoldsAlone pass (plain_of desk.old) parcel.batch (pies_in parcel.tasks) }
    ensures done { BatchDone pass (M.honest maker.now) (M.gives maker.now) desk.old desk.new result }
    ensures good { StillGood desk.old desk.new }
{
    let batch = parcel.batch;
    match certified(rt, alloc, maker, parcel) {
        Ok(certified) => registered(alloc, desk, pass, batch, certified),
        Err(end) => not_certified(desk, pass, batch, end),
    }
}

// Gives the batch back that got no certificate.
fn not_certified(desk: &mut Desk, pass: u32, batch: u32, end: End<RunFault>) -> Round
    ensures done { (pies : List PieRecord) → HoldsAlone pass (plain_of desk.old) batch pies → NotCertified pass batch pies end desk.old desk.new result }
    ensures good { StillGood desk.old desk.new }
{
    let back = handed_back(desk, pass, batch);
    match end {
        End::OutOfMemory => Round::Ended(WorkEnd::OutOfMemory),
        End::Refused(fault) => rejected(back, batch, fault),
    }
}

// How the round ends where the certificate has this fault, by whether the batch was given back.
fn rejected(back: bool, batch: u32, fault: RunFault) -> Round
    ensures { result ≡ rejecting_round back batch fault }
{
    if back {
        Round::Ended(WorkEnd::Rejected(batch, fault))
    } else {
        Round::Ended(WorkEnd::OutOfMemory)
    }
}

// The parcel with its maker's certificate, checked.
pub(crate) fn certified<R: Threads + Sync, M: Maker>(
    rt: &R,
    alloc: Global,
    maker: &M,
    parcel: Parcel,
) -> Result<Certified, End<RunFault>>
    ensures kept { IfOk result (λ c. c.parcel ≡ parcel) }
    ensures faulty { (e : RunFault) → result ≡ Err (End.Refused e) → IsFaulty (M.honest maker.now) (M.gives maker.now) parcel e }
{
    certified_has_no_fault();
    match maker.make(alloc, &parcel) {
        Ok(cert) => certify(rt, alloc, cert, parcel, CHUNKS),
        Err(AllocError) => Err(End::OutOfMemory),
    }
}

// Registers the batch in hand.
fn registered(alloc: Global, desk: &mut Desk, pass: u32, batch: u32, certified: Certified) -> Round
    requires holds { HoldsAlone pass (plain_of desk.old) batch (pies_in certified.parcel.tasks) }
    ensures done { RegisterDone pass desk.old desk.new result }
    ensures good { StillGood desk.old desk.new }
{
    match desk.register(alloc, pass, batch, certified) {
        RegisterEnd::Done => Round::Went,
        RegisterEnd::OutOfMemory(_) => {
            let _ = handed_back(desk, pass, batch);
            Round::Ended(WorkEnd::OutOfMemory)
        }
        RegisterEnd::NotTaken(_, _) => unreachable!(),
        RegisterEnd::Stranger(_, _) => unreachable!(),
    }
}

// Whether the batch was given back. Where memory is wanted it is tried again.
fn handed_back(desk: &mut Desk, pass: u32, batch: u32) -> bool
    ensures back { (pies : List PieRecord) → HoldsAlone pass (plain_of desk.old) batch pies → HandedBack pass batch pies desk.old desk.new result }
    ensures good { StillGood desk.old desk.new }
{
    match desk.give_back(pass, batch) {
        Ok(_) => true,
        Err(AllocError) => handed_back_again(desk, pass, batch),
    }
}

fn handed_back_again(desk: &mut Desk, pass: u32, batch: u32) -> bool
    requires good { IsGoodDesk desk.old }
    ensures back { (pies : List PieRecord) → HoldsAlone pass (plain_of desk.old) batch pies → HandedBack pass batch pies desk.old desk.new result }
    ensures good { IsGoodDesk desk.new }
{
    for _ in 0..MOST_RETRIES {
        match desk.give_back(pass, batch) {
            Ok(_) => return true,
            Err(AllocError) => {}
        }
    }
    false
}
