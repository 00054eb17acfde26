ghost use Rattle.std.specs.Prelude.{◌≡◌, ◌<◌, ℕ, All, IfOk};
ghost use Rattle.session_desk.specs.SeenDesks.{IsIdlePass};
ghost use Rattle.turn_lock.specs.Passes.{IsNumberOf};

use crate::passes::{desk_for_three, offered, task};
use batch_runner::{BootMaker, Maker};
use batch_workers::{OpenGate, WorkEnd, work_idle};
use boot_program::Certified;
use cairo_model::Fact;
use desk_core::{Desk, JobPhase, RegisterEnd, Reply};
use row_checker::certify;
use session_desk::{Held, SharedDesk};
use std::alloc::{AllocError, Global};
use std::sync::Wait;
use std::test::Fail;
use std::thread::Threads;
use turn_lock::Pass;
use worked_vectors::files::{EMPTY, FIVE};

// A batch of the program that writes 5, taken and certified.
fn certified<R: Threads + Wait + Sync>(
    rt: &R,
    alloc: Global,
    desk: &SharedDesk,
    worker: &mut Pass<Held>,
) -> Result<Certified, Fail>
    requires worker { worker.old.lock ≡ desk.now.lock }
    ensures worker { worker.new.lock ≡ worker.old.lock }
{
    let (_, parcel) = desk.take(rt, alloc, worker)?;
    let Some(parcel) = parcel else {
        return Err(Fail::from(AllocError));
    };
    let cert = BootMaker.make(alloc, &parcel)?;
    match certify(rt, alloc, cert, parcel, 2) {
        Ok(certified) => Ok(certified),
        Err(_) => Err(Fail::from(AllocError)),
    }
}

#[test]
fn a_batch_is_sealed_given_back_and_registered(rt: HostRuntime) -> Result<(), Fail> {
    let alloc = rt.alloc();
    let (desk, mut client, mut worker, mut other) = desk_for_three(&rt, alloc)?;
    let _ = desk.submit(&rt, alloc, &mut client, 0, offered(alloc, FIVE)?)?;
    assert_eq!(rt; desk.seal(&rt, alloc, &mut worker)?, Reply::SealedBatch(0));
    let _ = desk.take(&rt, alloc, &mut other)?;
    assert_eq!(rt; desk.give_back(&rt, &mut other, 0)?, Reply::Returned);
    let certified = certified(&rt, alloc, &desk, &mut worker)?;
    let end = desk.register(&rt, alloc, &mut worker, 0, certified);
    assert!(rt; matches!(end, RegisterEnd::Done));
    let told = desk.status(&rt, &mut client, 0, 0)?;
    assert_eq!(rt; told, Reply::IsAt(JobPhase::Registered));
    Ok(())
}

#[test]
fn a_closed_desk_admits_nothing(rt: HostRuntime) -> Result<(), Fail> {
    let alloc = rt.alloc();
    let (desk, mut client, mut other, _) = desk_for_three(&rt, alloc)?;
    assert_eq!(rt; desk.close(&rt, &mut other)?, Reply::Closed);
    desk.meet(&mut client, &mut other);
    let reply = desk.submit(&rt, alloc, &mut client, 0, offered(alloc, FIVE)?)?;
    assert_eq!(rt; reply, Reply::Closed);
    Ok(())
}

#[test]
fn a_desk_is_given_out(rt: HostRuntime) -> Result<(), Fail> {
    let (shared, passes) = SharedDesk::new(&rt, rt.alloc(), 2, 3)?;
    let desk = shared.finish(&rt, passes);
    assert_eq!(rt; desk.clients(), 2);
    assert_eq!(rt; desk.entries().len(), 0);
    Ok(())
}

// Whether a worker, once the client has handed in the program that writes 5, went on until nothing waited.
fn five_worked<R: Threads + Wait + Sync>(
    rt: &R,
    alloc: Global,
    desk: &SharedDesk,
    client: &mut Pass<Held>,
    worker: &mut Pass<Held>,
) -> Result<bool, Fail>
    requires own { (client.old.lock ≡ desk.now.lock) × (client.old.width ≡ 1) }
    requires worker { worker.old.lock ≡ desk.now.lock }
    requires idle { IsIdlePass worker.old }
    ensures client { (client.new.lock ≡ client.old.lock) × (client.new.number ≡ client.old.number) }
    ensures width { client.new.width ≡ client.old.width }
    ensures worker { (worker.new.lock ≡ worker.old.lock) × (worker.new.number ≡ worker.old.number) }
{
    let _ = desk.submit(rt, alloc, client, 0, offered(alloc, FIVE)?)?;
    Ok(drained(rt, alloc, desk, worker))
}

// Whether the worker went on until nothing waited.
fn drained<R: Threads + Wait + Sync>(
    rt: &R,
    alloc: Global,
    desk: &SharedDesk,
    worker: &mut Pass<Held>,
) -> bool
    requires worker { worker.old.lock ≡ desk.now.lock }
    requires idle { IsIdlePass worker.old }
    ensures { (worker.new.lock ≡ worker.old.lock) × (worker.new.number ≡ worker.old.number) }
{
    match work_idle(rt, alloc, desk, worker, &BootMaker, &OpenGate) {
        WorkEnd::Drained => true,
        WorkEnd::OutOfMemory => false,
        WorkEnd::Rejected(_, _) => false,
    }
}

// What the client is told of two facts, before and after the batch of the program that writes 5 is registered.
fn told_of<R: Threads + Wait + Sync>(
    rt: &R,
    alloc: Global,
    desk: &SharedDesk,
    client: &mut Pass<Held>,
    worker: &mut Pass<Held>,
    facts: (&Fact, &Fact),
) -> Result<[Reply; 4], Fail>
    requires own { (client.old.lock ≡ desk.now.lock) × (client.old.width ≡ 1) }
    requires worker { worker.old.lock ≡ desk.now.lock }
    requires idle { IsIdlePass worker.old }
{
    let first = desk.ask(rt, alloc, client, 0, facts.0)?;
    let second = desk.ask(rt, alloc, client, 0, facts.1)?;
    let _ = five_worked(rt, alloc, desk, client, worker)?;
    let third = desk.ask(rt, alloc, client, 0, facts.0)?;
    let fourth = desk.ask(rt, alloc, client, 0, facts.1)?;
    Ok([first, second, third, fourth])
}

#[test]
fn a_fact_stands_once_it_is_registered(rt: HostRuntime) -> Result<(), Fail> {
    let five = task(rt.alloc(), FIVE)?;
    let empty = task(rt.alloc(), EMPTY)?;
    let replies = {
        let (desk, mut client, mut worker, _) = desk_for_three(&rt, rt.alloc())?;
        let facts = (five.fact(), empty.fact());
        told_of(&rt, rt.alloc(), &desk, &mut client, &mut worker, facts)
    };
    let wanted = [Reply::No, Reply::No, Reply::Yes, Reply::No];
    assert_eq!(rt; replies?, wanted);
    Ok(())
}

// The three passes of a desk in a list.
fn listed(
    alloc: Global,
    desk: &SharedDesk,
    first: Pass<Held>,
    second: Pass<Held>,
    third: Pass<Held>,
) -> Result<Vec<Pass<Held>>, AllocError>
    requires three { desk.now.passes ≡ 3 }
    requires own { (first.lock ≡ desk.now.lock) × (second.lock ≡ desk.now.lock) × (third.lock ≡ desk.now.lock) }
    requires numbers { (first.number ≡ 0) × (second.number ≡ 1) × (third.number ≡ 2) }
    ensures own { IfOk result (λ l. All (λ p. p.lock ≡ desk.now.lock) l.items) }
    ensures each { IfOk result (λ l. (number : ℕ) → number < desk.now.passes → IsNumberOf l.items number) }
{
    let list = vec![in alloc; first, second, third]?;
    Ok(list)
}

// The desk at which a worker registered the program that writes 5.
fn desk_with_five<R: Threads + Wait + Sync>(rt: &R, alloc: Global) -> Result<Desk, Fail> {
    let (desk, mut client, mut worker, other) = desk_for_three(rt, alloc)?;
    let _ = five_worked(rt, alloc, &desk, &mut client, &mut worker)?;
    let passes = listed(alloc, &desk, client, worker, other)?;
    Ok(desk.finish(rt, passes))
}

// How many facts, jobs and batches it has.
fn counts(alloc: Global, desk: &Desk) -> Result<(usize, usize, usize), AllocError> {
    let facts = desk.registry().sorted(alloc)?;
    Ok((facts.len(), desk.jobs().len(), desk.batches().len()))
}

#[test]
fn a_desk_is_given_out_with_what_is_registered(rt: HostRuntime) -> Result<(), Fail> {
    let five = task(rt.alloc(), FIVE)?;
    let (counts, stands) = {
        let desk = desk_with_five(&rt, rt.alloc())?;
        (
            counts(rt.alloc(), &desk),
            desk.registry().holds(five.fact()),
        )
    };
    assert_eq!(rt; counts?, (1, 1, 1));
    assert!(rt; stands);
    Ok(())
}
