ghost use Rattle.std.specs.Prelude.{◌≡◌};
ghost use Rattle.session_desk.specs.SeenDesks.{IsIdlePass};

use crate::asker::{Asker, AskingGate};
use crate::passes::{desk_for_three, offered, task};
use batch_runner::BootMaker;
use batch_workers::{Gate, Point, work_idle};
use cairo_model::Fact;
use desk_core::Reply;
use session_desk::{Held, SharedDesk};
use std::alloc::Global;
use std::sync::Wait;
use std::test::Fail;
use std::thread::Threads;
use turn_lock::Pass;
use worked_vectors::files::{EMPTY, FIVE};

// The replies to two programs that a client hands in, with a worker between them.
fn replies<R: Threads + Wait + Sync, G: Gate>(
    rt: &R,
    alloc: Global,
    desk: &SharedDesk,
    client: &mut Pass<Held>,
    worker: &mut Pass<Held>,
    gate: &G,
) -> Result<(Reply, Reply), Fail>
    requires own { (client.old.lock ≡ desk.now.lock) × (client.old.width ≡ 1) }
    requires worker { worker.old.lock ≡ desk.now.lock }
    requires idle { IsIdlePass worker.old }
{
    gate.reach(rt, Point::BeforeSubmit(0));
    let first = desk.submit(rt, alloc, client, 0, offered(alloc, FIVE)?)?;
    let _ = work_idle(rt, alloc, desk, worker, &BootMaker, gate);
    gate.reach(rt, Point::BeforeSubmit(0));
    let second = desk.submit(rt, alloc, client, 0, offered(alloc, EMPTY)?)?;
    Ok((first, second))
}

// These replies, and what the gate was told of the fact at each point meanwhile.
fn asked_meanwhile<R: Threads + Wait + Sync>(
    rt: &R,
    alloc: Global,
    fact: &Fact,
) -> Result<((Reply, Reply), Vec<(Point, Reply)>), Fail> {
    let (desk, mut client, mut worker, pass) = desk_for_three(rt, alloc)?;
    let gate = AskingGate::new(Asker {
        alloc,
        desk: &desk,
        pass,
        fact,
        told: Vec::new(alloc),
    });
    let replies = replies(rt, alloc, &desk, &mut client, &mut worker, &gate);
    let told = gate.into_told();
    Ok((replies?, told))
}

#[test]
fn a_gate_that_asks_is_told_what_is_registered(rt: HostRuntime) -> Result<(), Fail> {
    let five = task(rt.alloc(), FIVE)?;
    let (replies, told) = asked_meanwhile(&rt, rt.alloc(), five.fact())?;
    let wanted = [
        (Point::BeforeSubmit(0), Reply::No),
        (Point::BeforeMake(0), Reply::No),
        (Point::BeforeRegister(0), Reply::No),
        (Point::BeforeSubmit(0), Reply::Yes),
    ];
    assert_eq!(rt; replies, (Reply::Admitted(0), Reply::Admitted(1)));
    assert!(rt; told.as_slice() == wanted.as_slice());
    Ok(())
}
