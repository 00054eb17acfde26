ghost use Rattle.std.specs.Prelude.{◌≡◌};
ghost use Rattle.session_desk.specs.SeenDesks.{IsIdlePass};

use crate::passes::{desk_for_three, offered, task};
use batch_runner::{BootMaker, Maker};
use batch_workers::{Bell, OpenGate, WorkEnd, work};
use boot_program::{Parcel, RunFault};
use cairo_model::{Cert, felt_of};
use desk_core::{JobPhase, Reply};
use session_desk::{Held, SharedDesk};
use std::alloc::{AllocError, Global};
use std::sync::Wait;
use std::test::Fail;
use std::thread::Threads;
use turn_lock::Pass;
use worked_vectors::files::{EMPTY, FIVE};

// Gives the certificate of one parcel for every other.
#[derive(Debug, Drop)]
struct OneCertMaker {
    parcel: Parcel,
}

impl Maker for OneCertMaker {
    ghost honest = { λ m. ⊥ };

    ghost gives = { λ m parcel cert. Unit {0} };

    fn make(&self, alloc: Global, _parcel: &Parcel) -> Result<Cert, AllocError> {
        BootMaker.make(alloc, &self.parcel)
    }
}

// Never finds memory.
#[derive(Clone, Copy, Debug, Drop)]
struct WantfulMaker;

impl Maker for WantfulMaker {
    ghost honest = { λ m. Unit {0} };

    ghost gives = { λ m parcel cert. ⊥ };

    fn make(&self, _alloc: Global, _parcel: &Parcel) -> Result<Cert, AllocError> {
        Err(AllocError)
    }
}

// How a worker ends where the program that writes 5 waits at a closed desk, where its job stands then, and whether its fact does.
fn worked<R: Threads + Wait + Sync, M: Maker>(
    rt: &R,
    alloc: Global,
    desk: &SharedDesk,
    client: &mut Pass<Held>,
    worker: &mut Pass<Held>,
    maker: &M,
) -> Result<(WorkEnd, Reply, Reply), Fail>
    requires own { (client.old.lock ≡ desk.now.lock) × (client.old.width ≡ 1) }
    requires worker { worker.old.lock ≡ desk.now.lock }
    requires idle { IsIdlePass worker.old }
{
    let _ = desk.submit(rt, alloc, client, 0, offered(alloc, FIVE)?)?;
    let _ = desk.close(rt, client)?;
    let end = work(rt, alloc, desk, worker, maker, &OpenGate, &Bell::new());
    let told = desk.status(rt, client, 0, 0)?;
    let five = task(alloc, FIVE)?;
    let known = desk.ask(rt, alloc, client, 0, five.fact())?;
    Ok((end, told, known))
}

#[test]
fn an_honest_makers_batch_is_registered(rt: HostRuntime) -> Result<(), Fail> {
    let (desk, mut client, mut worker, _) = desk_for_three(&rt, rt.alloc())?;
    let (end, told, known) = worked(&rt, rt.alloc(), &desk, &mut client, &mut worker, &BootMaker)?;
    assert!(rt; matches!(end, WorkEnd::Drained));
    assert_eq!(rt;
        (told, known),
        (Reply::IsAt(JobPhase::Registered), Reply::Yes)
    );
    Ok(())
}

// The parcel of the program that does nothing.
fn empty_parcel(alloc: Global) -> Result<Parcel, Fail> {
    let empty = task(alloc, EMPTY)?;
    let _empty = empty.states();
    let mut tasks = Vec::new(alloc);
    tasks.push(empty)?;
    Ok(Parcel { batch: 0, tasks })
}

#[test]
fn a_dishonest_makers_batch_is_sealed_again(rt: HostRuntime) -> Result<(), Fail> {
    let maker = OneCertMaker {
        parcel: empty_parcel(rt.alloc())?,
    };
    let (desk, mut client, mut worker, _) = desk_for_three(&rt, rt.alloc())?;
    let (end, told, known) = worked(&rt, rt.alloc(), &desk, &mut client, &mut worker, &maker)?;
    let wanted = RunFault::Output(1, Some(felt_of(9)), Some(felt_of(10)));
    assert!(rt; matches!(end, WorkEnd::Rejected(0, fault) if fault == wanted));
    assert_eq!(rt; (told, known), (Reply::IsAt(JobPhase::Sealed), Reply::No));
    Ok(())
}

#[test]
fn a_batch_whose_maker_wants_memory_is_sealed_again(rt: HostRuntime) -> Result<(), Fail> {
    let (desk, mut client, mut worker, _) = desk_for_three(&rt, rt.alloc())?;
    let (end, told, known) = worked(
        &rt,
        rt.alloc(),
        &desk,
        &mut client,
        &mut worker,
        &WantfulMaker,
    )?;
    assert!(rt; matches!(end, WorkEnd::OutOfMemory));
    assert_eq!(rt; (told, known), (Reply::IsAt(JobPhase::Sealed), Reply::No));
    Ok(())
}

#[test]
fn a_bell_counts_its_rings(rt: HostRuntime) {
    let bell = Bell::new();
    bell.ring(&rt);
    assert_eq!(rt; bell.listen(&rt, 0), 1);
    assert_eq!(rt; bell.count(&rt), 1);
}
