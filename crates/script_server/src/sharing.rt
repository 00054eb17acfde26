ghost use Rattle.std.specs.Prelude.{◌<◌, ◌+◌, ◌^◌, ℕ, IfOk, IfSome, map, vec_len};
ghost use Rattle.desk_script.specs.Views.{line_view};
ghost use Rattle.script_server.specs.Working.Dealing.{AreDealt, CanAllStart, HasRoomFor};
ghost use Rattle.script_server.specs.Working.Served.{AllEnded};

use crate::closing::close_desk;
use crate::joining::{join_clients, join_workers};
use crate::passes::{Dealt, Reserved, reserve};
use crate::starting::{begin_clients, begin_workers};
use batch_runner::Maker;
use batch_workers::{Bell, Gate};
use desk_script::Script;
use session_desk::{Held, SharedDesk};
use std::alloc::{AllocError, Global};
use std::sync::Wait;
use std::sync::atomic::AtomicU32;
use std::thread;
use std::thread::{Scope, Threads};
use turn_lock::Pass;

// Starts all clients and workers, closes the desk when the clients have ended, and gives all passes back when the workers have.
fn run_all<'s, 'e: 's, R: Threads + Wait + Sync, M: Maker + Sync, G: Gate>(
    rt: &'e R,
    alloc: Global,
    scope: &Scope<'s, &'e ()>,
    desk: &'e SharedDesk,
    dealt: Dealt,
    maker: &'e M,
    gate: &'e G,
    bell: &'e Bell,
    aside: &'e AtomicU32,
    script: &'e Script,
    room: Reserved,
) -> Option<Vec<Pass<Held>>>
    requires start { CanAllStart desk.now.lock dealt }
    requires room { HasRoomFor (vec_len dealt.clients) (vec_len dealt.workers) room }
    requires honest { M.honest maker.now }
    ensures { (clients workers : ℕ) → AreDealt desk.now.lock clients workers dealt → IfSome result (λ v. AllEnded desk.now.lock clients workers (map line_view script.now.lines.items) v.items) }
{
    let Dealt {
        clients,
        workers,
        mut own,
    } = dealt;
    let clients = begin_clients(
        rt,
        alloc,
        scope,
        desk,
        clients,
        maker,
        gate,
        bell,
        script,
        room.clients,
    );
    let workers = begin_workers(
        rt,
        alloc,
        scope,
        desk,
        workers,
        maker,
        gate,
        bell,
        aside,
        room.workers,
    );
    let (ended, done) = join_clients(rt, desk, &mut own, clients, room.ended);
    close_desk(rt, desk, &mut own);
    bell.ring(rt);
    let mut ended = join_workers(rt, workers, ended);
    let Ok(()) = ended.push(own) else {
        unreachable!()
    };
    if done { Some(ended) } else { None }
}

/// Serves the script by threads, and gives all passes back. Where a client found no memory for a line there is no answer.
pub(crate) fn in_threads<R: Threads + Wait + Sync, M: Maker + Sync, G: Gate>(
    rt: &R,
    alloc: Global,
    desk: &SharedDesk,
    dealt: Dealt,
    maker: &M,
    gate: &G,
    script: &Script,
) -> Result<Vec<Pass<Held>>, AllocError>
    requires start { CanAllStart desk.now.lock dealt }
    requires few { vec_len dealt.clients + vec_len dealt.workers < 2 ^ 32 }
    requires honest { M.honest maker.now }
    ensures { (clients workers : ℕ) → AreDealt desk.now.lock clients workers dealt → IfOk result (λ v. AllEnded desk.now.lock clients workers (map line_view script.now.lines.items) v.items) }
{
    let room = reserve(alloc, dealt.clients.len(), dealt.workers.len())?;
    let bell = Bell::new();
    // The caller's own number is no worker's.
    let aside = AtomicU32::new(dealt.own.number());
    let (ringing, standing) = (&bell, &aside);
    let ended = thread::scope(
        thread::scope_env(),
        rt,
        |scope| -> Option<Vec<Pass<Held>>>
            requires { CanAllStart desk.now.lock dealt × HasRoomFor (vec_len dealt.clients) (vec_len dealt.workers) room × M.honest maker.now }
            ensures { (clients workers : ℕ) → AreDealt desk.entry.now.lock clients workers dealt → IfSome result (λ v. AllEnded desk.entry.now.lock clients workers (map line_view script.entry.now.lines.items) v.items) }
        {
            run_all(
                rt, alloc, scope, desk, dealt, maker, gate, ringing, standing, script, room,
            )
        },
    );
    ended.ok_or(AllocError)
}
