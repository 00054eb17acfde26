ghost use Rattle.std.specs.Prelude.{◌≡◌};
ghost use Rattle.session_desk.specs.SeenDesks.{IsIdlePass};
ghost use Rattle.batch_workers.specs.SharedWorks.{EndOpen, EndOver, WorkerDone};
ghost use Rattle.batch_workers.specs.Works.{EndBusy, EndIdle, IsNotRejected};

use crate::bell::Bell;
use crate::gate::Gate;
use crate::shared_round::SharedRound;
use crate::shared_rounds::shared_round;
use crate::work_end::WorkEnd;
use batch_runner::Maker;
use session_desk::{Held, SharedDesk};
use std::alloc::Global;
use std::sync::Wait;
use std::thread::Threads;
use turn_lock::Pass;

/// Takes, makes, certifies and registers batches of a shared desk, and seals what waits, until no batch is sealed and no job waits
/// at a closed desk (docs/SERVICE.md). Where the desk is open yet, it waits for the bell. When it ends, it rings for the next worker.
pub fn work<R: Threads + Wait + Sync, M: Maker, G: Gate>(
    rt: &R,
    alloc: Global,
    desk: &SharedDesk,
    pass: &mut Pass<Held>,
    maker: &M,
    gate: &G,
    bell: &Bell,
) -> WorkEnd
    requires own { pass.old.lock ≡ desk.now.lock }
    requires idle { IsIdlePass pass.old }
    ensures done { WorkerDone (EndOver pass.old.number) EndOpen (M.honest maker.now) (M.gives maker.now) pass.old pass.new result }
    // So an honest maker, as BootMaker is, never has a batch rejected.
    ensures honest { M.honest maker.now → IsNotRejected result }
{
    let end = work_by_the_bell(rt, alloc, desk, pass, maker, gate, bell);
    bell.ring(rt);
    end
}

fn work_by_the_bell<R: Threads + Wait + Sync, M: Maker, G: Gate>(
    rt: &R,
    alloc: Global,
    desk: &SharedDesk,
    pass: &mut Pass<Held>,
    maker: &M,
    gate: &G,
    bell: &Bell,
) -> WorkEnd
    requires own { pass.old.lock ≡ desk.now.lock }
    requires idle { IsIdlePass pass.old }
    ensures done { WorkerDone (EndOver pass.old.number) EndOpen (M.honest maker.now) (M.gives maker.now) pass.old pass.new result }
    ensures honest { M.honest maker.now → IsNotRejected result }
{
    let mut heard = bell.count(rt);
    for _ in rt.forever() {
        match shared_round(rt, alloc, desk, pass, maker, gate) {
            SharedRound::Went => {}
            SharedRound::Idle(closed) => {
                if closed {
                    return WorkEnd::Drained;
                }
                heard = bell.listen(rt, heard);
            }
            SharedRound::Ended(end) => return end,
        }
    }
    unreachable!()
}

/// The same until no batch is sealed and no job waits, whether the desk is closed or not. It never waits for a bell.
pub fn work_idle<R: Threads + Wait + Sync, M: Maker, G: Gate>(
    rt: &R,
    alloc: Global,
    desk: &SharedDesk,
    pass: &mut Pass<Held>,
    maker: &M,
    gate: &G,
) -> WorkEnd
    requires own { pass.old.lock ≡ desk.now.lock }
    requires idle { IsIdlePass pass.old }
    ensures done { WorkerDone (EndIdle pass.old.number) EndBusy (M.honest maker.now) (M.gives maker.now) pass.old pass.new result }
    ensures honest { M.honest maker.now → IsNotRejected result }
{
    for _ in rt.forever() {
        match shared_round(rt, alloc, desk, pass, maker, gate) {
            SharedRound::Went => {}
            SharedRound::Idle(_) => return WorkEnd::Drained,
            SharedRound::Ended(end) => return end,
        }
    }
    unreachable!()
}
