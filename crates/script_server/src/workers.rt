ghost use Rattle.script_server.specs.Working.Dealing.{CanStart};
ghost use Rattle.script_server.specs.Working.PassLines.{MadeWork};
ghost use Rattle.script_server.specs.Working.Threads.{HasCome, IsWorker};

use batch_runner::Maker;
use batch_workers::{Bell, Gate, work};
use session_desk::{Held, SharedDesk};
use std::alloc::Global;
use std::snapshot::Snapshot;
use std::sync::Wait;
use std::sync::atomic::{AtomicU32, Ordering};
use std::thread::{Promise, PromisedHandle, Scope, Threads};
use turn_lock::Pass;

/// The promise that a thread gives back its pass, which made a worker's entries alone.
#[derive(Drop)]
pub(crate) struct Working(pub(crate) Snapshot<Pass<Held>>);

impl Promise<Pass<Held>> for Working {
    ghost kept_by = { λ p r. MadeWork p.0.value r };
}

/// A worker that runs in a thread of its own, or that was left out since no thread could be made.
#[derive(Drop)]
pub(crate) enum Worker {
    Thread(PromisedHandle<Pass<Held>, Working>),
    Aside(Pass<Held>),
}

impl Worker {
    /// Waits for its end, and gives its pass back.
    pub(crate) fn join<R: Threads>(self, rt: &R) -> Pass<Held>
        ensures { HasCome self result }
    {
        match self {
            Worker::Thread(handle) => handle.join(rt),
            Worker::Aside(pass) => pass,
        }
    }
}

// Works until the desk is closed and nothing is left, or gives its pass back at once where it is the one that is left out.
fn run_worker<R: Threads + Wait + Sync, M: Maker, G: Gate>(
    rt: &R,
    alloc: Global,
    desk: &SharedDesk,
    mut pass: Pass<Held>,
    maker: &M,
    gate: &G,
    bell: &Bell,
    aside: &AtomicU32,
) -> Pass<Held>
    requires pass { CanStart desk.now.lock pass }
    ensures { MadeWork pass result }
{
    if aside.load(Ordering::SeqCst) == pass.number() {
        return pass;
    }
    let _ = work(rt, alloc, desk, &mut pass, maker, gate, bell);
    pass
}

/// Starts a worker in a thread of its own. Where no thread can be made its number is left in `aside`, and its pass comes back with
/// nothing done: only this call runs what was to be its thread, and no other worker has this number.
pub(crate) fn begin_worker<'s, 'e: 's, R: Threads + Wait + Sync, M: Maker + Sync, G: Gate>(
    rt: &'e R,
    alloc: Global,
    scope: &Scope<'s, &'e ()>,
    desk: &'e SharedDesk,
    pass: Pass<Held>,
    maker: &'e M,
    gate: &'e G,
    bell: &'e Bell,
    aside: &'e AtomicU32,
) -> Worker
    requires pass { CanStart desk.now.lock pass }
    ensures { IsWorker pass result }
{
    let number = pass.number();
    let promise = Working(Snapshot::of(&pass));
    let working = move || -> Pass<Held>
        requires { CanStart desk.now.lock pass }
        ensures { MadeWork pass result }
    { run_worker(rt, alloc, desk, pass, maker, gate, bell, aside) };
    match scope.spawn_with(promise, working) {
        Ok(handle) => Worker::Thread(handle),
        Err(refused) => {
            aside.store(number, Ordering::SeqCst);
            Worker::Aside((refused.value)())
        }
    }
}
