ghost use Rattle.std.specs.Prelude.{◌<◌, map};
ghost use Rattle.desk_script.specs.Views.{line_view};
ghost use Rattle.script_server.specs.Working.Dealing.{IsClientPass};
ghost use Rattle.script_server.specs.Working.PassLines.{GivesLines};
ghost use Rattle.script_server.specs.Working.Threads.{HasGiven, IsClient};

use crate::lines::do_lines;
use batch_runner::Maker;
use batch_workers::{Bell, Gate};
use desk_script::Script;
use session_desk::{Held, SharedDesk};
use std::alloc::Global;
use std::snapshot::Snapshot;
use std::sync::Wait;
use std::thread::{Promise, PromisedHandle, Scope, Threads};
use turn_lock::Pass;

/// The promise that a thread gives back its pass, and has done that pass's lines of the script if it says so.
#[derive(Drop)]
pub(crate) struct Doing(pub(crate) Snapshot<Pass<Held>>, pub(crate) Snapshot<Script>);

impl Promise<(Pass<Held>, bool)> for Doing {
    ghost kept_by = { λ p r. GivesLines (map line_view p.1.value.lines.items) p.0.value r.0 r.1 };
}

/// A client that runs in a thread of its own, or that was run by the caller.
#[derive(Drop)]
pub(crate) enum Client {
    Thread(PromisedHandle<(Pass<Held>, bool), Doing>),
    Here(Pass<Held>, bool),
}

impl Client {
    /// Waits for its end, and gives its pass back, and whether it did all its lines.
    pub(crate) fn join<R: Threads>(self, rt: &R) -> (Pass<Held>, bool)
        ensures { HasGiven self result.0 result.1 }
    {
        match self {
            Client::Thread(handle) => handle.join(rt),
            Client::Here(pass, done) => (pass, done),
        }
    }
}

// Does the pass's lines of the script.
fn run_client<R: Threads + Wait + Sync, M: Maker, G: Gate>(
    rt: &R,
    alloc: Global,
    desk: &SharedDesk,
    mut pass: Pass<Held>,
    maker: &M,
    gate: &G,
    bell: &Bell,
    script: &Script,
) -> (Pass<Held>, bool)
    requires pass { IsClientPass desk.now.lock pass }
    requires honest { M.honest maker.now }
    ensures { GivesLines (map line_view script.now.lines.items) pass result.0 result.1 }
{
    let lines = script.lines.as_slice();
    let done = do_lines(rt, alloc, desk, &mut pass, maker, gate, bell, lines).is_ok();
    // The number tells that the pass has seen all its own entries.
    let _ = pass.number();
    (pass, done)
}

/// Starts a client in a thread of its own, or runs it here where no thread can be made.
pub(crate) fn begin_client<'s, 'e: 's, R: Threads + Wait + Sync, M: Maker + Sync, G: Gate>(
    rt: &'e R,
    alloc: Global,
    scope: &Scope<'s, &'e ()>,
    desk: &'e SharedDesk,
    pass: Pass<Held>,
    maker: &'e M,
    gate: &'e G,
    bell: &'e Bell,
    script: &'e Script,
) -> Client
    requires pass { IsClientPass desk.now.lock pass }
    requires honest { M.honest maker.now }
    ensures { IsClient (map line_view script.now.lines.items) pass result }
{
    let promise = Doing(Snapshot::of(&pass), Snapshot::of(script));
    let doing = move || -> (Pass<Held>, bool)
        requires { IsClientPass desk.now.lock pass × M.honest maker.now }
        ensures { GivesLines (map line_view script.entry.now.lines.items) pass result.0 result.1 }
    { run_client(rt, alloc, desk, pass, maker, gate, bell, script) };
    match scope.spawn_with(promise, doing) {
        Ok(handle) => Client::Thread(handle),
        Err(refused) => {
            let (pass, done) = (refused.value)();
            Client::Here(pass, done)
        }
    }
}
