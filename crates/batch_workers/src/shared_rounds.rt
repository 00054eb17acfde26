// The rounds of a worker at a shared desk.
ghost use Rattle.std.specs.Prelude.{◌≡◌};
ghost use Rattle.desk_core.specs.Registrations.{pies_in};
ghost use Rattle.desk_core.specs.Stays.{pies_at};
ghost use Rattle.session_desk.specs.SeenDesks.{IsIdlePass, seen_desk};
ghost use Rattle.batch_workers.specs.Working.SharedRounds.{HasBatch, IsItsParcel, PassBack, PassBatch, PassKept, PassRegister, PassRound, PassSealing, PassTaking, PassUncertified, shared_rejecting, shared_sealing};

use crate::gate::Gate;
use crate::point::Point;
use crate::shared_round::SharedRound;
use crate::work_end::WorkEnd;
use crate::working::{MOST_RETRIES, certified};
use batch_runner::Maker;
use boot_program::{Certified, Parcel, RunFault};
use cairo_model::End;
use desk_core::{RegisterEnd, Reply};
use session_desk::{Held, SharedDesk};
use std::alloc::{AllocError, Global};
use std::sync::Wait;
use std::thread::Threads;
use turn_lock::Pass;

// Takes a batch and runs it, or else seals one.
pub(crate) fn shared_round<R: Threads + Wait + Sync, M: Maker, G: Gate>(
    rt: &R,
    alloc: Global,
    desk: &SharedDesk,
    pass: &mut Pass<Held>,
    maker: &M,
    gate: &G,
) -> SharedRound
    requires own { pass.old.lock ≡ desk.now.lock }
    requires idle { IsIdlePass pass.old }
    ensures { PassRound (M.honest maker.now) (M.gives maker.now) pass.old pass.new result }
{
    match taken_batch(rt, alloc, desk, pass) {
        Err(AllocError) => SharedRound::Ended(WorkEnd::OutOfMemory),
        Ok(Some(parcel)) => run_taken(rt, alloc, desk, pass, maker, gate, parcel),
        Ok(None) => seal_waiting(rt, alloc, desk, pass),
    }
}

fn taken_batch<R: Wait + Sync>(
    rt: &R,
    alloc: Global,
    desk: &SharedDesk,
    pass: &mut Pass<Held>,
) -> Result<Option<Parcel>, AllocError>
    requires own { pass.old.lock ≡ desk.now.lock }
    requires idle { IsIdlePass pass.old }
    ensures lock { pass.new.lock ≡ pass.old.lock }
    ensures took { PassTaking pass.old pass.new result }
{
    match desk.take(rt, alloc, pass) {
        Ok((_, parcel)) => Ok(parcel),
        Err(AllocError) => Err(AllocError),
    }
}

// Seals the next batch.
fn seal_waiting<R: Wait + Sync>(
    rt: &R,
    alloc: Global,
    desk: &SharedDesk,
    pass: &mut Pass<Held>,
) -> SharedRound
    requires own { pass.old.lock ≡ desk.now.lock }
    requires idle { IsIdlePass pass.old }
    ensures { PassSealing pass.old pass.new result }
{
    match desk.seal(rt, alloc, pass) {
        Ok(reply) => after_sealing(&reply),
        Err(AllocError) => SharedRound::Ended(WorkEnd::OutOfMemory),
    }
}

// What a sealing with this reply came to.
fn after_sealing(reply: &Reply) -> SharedRound
    ensures { result ≡ shared_sealing reply.now }
{
    match reply {
        Reply::NothingWaiting(closed) => SharedRound::Idle(*closed),
        _ => SharedRound::Went,
    }
}

// Has the certificate of the batch in hand made and registers it, or else gives the batch back.
fn run_taken<R: Threads + Wait + Sync, M: Maker, G: Gate>(
    rt: &R,
    alloc: Global,
    desk: &SharedDesk,
    pass: &mut Pass<Held>,
    maker: &M,
    gate: &G,
    parcel: Parcel,
) -> SharedRound
    requires own { pass.old.lock ≡ desk.now.lock }
    requires holds { HasBatch pass.old parcel.batch }
    requires pies { IsItsParcel pass.old parcel }
    ensures { PassBatch (M.honest maker.now) (M.gives maker.now) pass.old pass.new result }
{
    let batch = parcel.batch;
    gate.reach(rt, Point::BeforeMake(batch));
    match certified(rt, alloc, maker, parcel) {
        Ok(certified) => {
            gate.reach(rt, Point::BeforeRegister(batch));
            register_held(rt, alloc, desk, pass, batch, certified)
        }
        Err(end) => give_uncertified(rt, desk, pass, batch, end),
    }
}

// Gives the batch back that got no certificate.
fn give_uncertified<R: Wait + Sync>(
    rt: &R,
    desk: &SharedDesk,
    pass: &mut Pass<Held>,
    batch: u32,
    end: End<RunFault>,
) -> SharedRound
    requires own { pass.old.lock ≡ desk.now.lock }
    requires holds { HasBatch pass.old batch }
    ensures { PassUncertified batch end pass.old pass.new result }
{
    let back = given_back(rt, desk, pass, batch);
    match end {
        End::OutOfMemory => SharedRound::Ended(WorkEnd::OutOfMemory),
        End::Refused(fault) => after_fault(back, batch, fault),
    }
}

// How the round ends where the certificate has this fault, by whether the batch was given back.
fn after_fault(back: bool, batch: u32, fault: RunFault) -> SharedRound
    ensures { result ≡ shared_rejecting back batch fault }
{
    if back {
        SharedRound::Ended(WorkEnd::Rejected(batch, fault))
    } else {
        SharedRound::Ended(WorkEnd::OutOfMemory)
    }
}

// Registers the batch in hand, or gives it back.
fn register_held<R: Wait + Sync>(
    rt: &R,
    alloc: Global,
    desk: &SharedDesk,
    pass: &mut Pass<Held>,
    batch: u32,
    certified: Certified,
) -> SharedRound
    requires own { pass.old.lock ≡ desk.now.lock }
    requires holds { HasBatch pass.old batch }
    requires pies { pies_in certified.parcel.tasks ≡ pies_at (seen_desk pass.old) batch }
    ensures { PassRegister pass.old pass.new result }
{
    if kept(rt, alloc, desk, pass, batch, certified) {
        return SharedRound::Went;
    }
    let _ = given_back(rt, desk, pass, batch);
    SharedRound::Ended(WorkEnd::OutOfMemory)
}

// Whether the batch was registered. A batch in hand is its pass's until then, with the PIEs that it had.
fn kept<R: Wait + Sync>(
    rt: &R,
    alloc: Global,
    desk: &SharedDesk,
    pass: &mut Pass<Held>,
    batch: u32,
    certified: Certified,
) -> bool
    requires own { pass.old.lock ≡ desk.now.lock }
    requires holds { HasBatch pass.old batch }
    requires pies { pies_in certified.parcel.tasks ≡ pies_at (seen_desk pass.old) batch }
    ensures { PassKept batch pass.old pass.new result }
{
    match desk.register(rt, alloc, pass, batch, certified) {
        RegisterEnd::Done => true,
        RegisterEnd::OutOfMemory(_) => false,
        RegisterEnd::NotTaken(_, _) => unreachable!(),
        RegisterEnd::Stranger(_, _) => unreachable!(),
    }
}

// Whether the batch was given back. Where memory is wanted it is tried again.
fn given_back<R: Wait + Sync>(rt: &R, desk: &SharedDesk, pass: &mut Pass<Held>, batch: u32) -> bool
    requires own { pass.old.lock ≡ desk.now.lock }
    requires holds { HasBatch pass.old batch }
    ensures { PassBack batch pass.old pass.new result }
{
    for _ in 0..1 + MOST_RETRIES {
        match desk.give_back(rt, pass, batch) {
            Ok(_) => return true,
            Err(AllocError) => {}
        }
    }
    false
}
