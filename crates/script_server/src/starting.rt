ghost use Rattle.std.specs.Prelude.{◌≡◌, ◌≤◌, [], All, map, vec_len, vec_capacity};
ghost use Rattle.std.specs.List.{AllZip};
ghost use Rattle.desk_script.specs.Views.{line_view};
ghost use Rattle.script_server.specs.Working.Dealing.{CanStart, IsClientPass};
ghost use Rattle.script_server.specs.Working.Threads.{IsClient, IsWorker};

use crate::clients::{Client, begin_client};
use crate::workers::{Worker, begin_worker};
use batch_runner::Maker;
use batch_workers::{Bell, Gate};
use desk_script::Script;
use session_desk::{Held, SharedDesk};
use std::alloc::Global;
use std::sync::Wait;
use std::sync::atomic::AtomicU32;
use std::thread::{Scope, Threads};
use turn_lock::Pass;

/// Starts a client for each pass.
pub(crate) fn begin_clients<'s, 'e: 's, R: Threads + Wait + Sync, M: Maker + Sync, G: Gate>(
    rt: &'e R,
    alloc: Global,
    scope: &Scope<'s, &'e ()>,
    desk: &'e SharedDesk,
    passes: Vec<Pass<Held>>,
    maker: &'e M,
    gate: &'e G,
    bell: &'e Bell,
    script: &'e Script,
    mut started: Vec<Client>,
) -> Vec<Client>
    requires passes { All (IsClientPass desk.now.lock) passes.items }
    requires honest { M.honest maker.now }
    requires empty { started.items ≡ [] }
    requires room { vec_len passes ≤ vec_capacity started }
    ensures started { AllZip (IsClient (map line_view script.now.lines.items)) passes.items result.items }
    ensures len { vec_len result ≡ vec_len passes }
{
    for pass in passes {
        let one = begin_client(rt, alloc, scope, desk, pass, maker, gate, bell, script);
        let Ok(()) = started.push(one) else {
            unreachable!()
        };
    }
    started
}

/// Starts a worker for each pass.
pub(crate) fn begin_workers<'s, 'e: 's, R: Threads + Wait + Sync, M: Maker + Sync, G: Gate>(
    rt: &'e R,
    alloc: Global,
    scope: &Scope<'s, &'e ()>,
    desk: &'e SharedDesk,
    passes: Vec<Pass<Held>>,
    maker: &'e M,
    gate: &'e G,
    bell: &'e Bell,
    aside: &'e AtomicU32,
    mut started: Vec<Worker>,
) -> Vec<Worker>
    requires passes { All (CanStart desk.now.lock) passes.items }
    requires empty { started.items ≡ [] }
    requires room { vec_len passes ≤ vec_capacity started }
    ensures started { AllZip IsWorker passes.items result.items }
    ensures len { vec_len result ≡ vec_len passes }
{
    for pass in passes {
        let one = begin_worker(rt, alloc, scope, desk, pass, maker, gate, bell, aside);
        let Ok(()) = started.push(one) else {
            unreachable!()
        };
    }
    started
}
