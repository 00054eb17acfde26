ghost use Rattle.std.specs.Prelude.{◌<◌, ◌≤◌, All, IfOk, map};
ghost use Rattle.desk_core.specs.GoodDesks.{IsGoodDesk};
ghost use Rattle.desk_core.specs.Limits.{most_clients};
ghost use Rattle.desk_script.specs.Views.{line_view};
ghost use Rattle.script_runner.specs.Lines.{line_client};
ghost use Rattle.script_runner.specs.Serving.{ServesScript};
ghost use Rattle.script_server.specs.Limits.{most_workers};

use crate::held::none_is_taken;
use crate::passes::deal;
use crate::sharing::in_threads;
use batch_runner::Maker;
use batch_workers::{Gate, WorkEnd, work_plain};
use desk_core::Desk;
use desk_script::Script;
use session_desk::SharedDesk;
use std::alloc::{AllocError, Global};
use std::sync::Wait;
use std::thread::Threads;

/// Serves a script at a shared desk: a thread for each client, which does that client's lines, and one for each worker. When all
/// clients have ended, a pass of the caller's own, which has seen all that they did, closes the desk; when the workers have ended
/// too, the caller makes what batches are left (docs/SERVICE.md). A client whose thread can't be started is run by the caller, and
/// such a worker is left out. It wants memory where a client or the caller did, or where a worker left a batch taken.
pub fn serve_script<R: Threads + Wait + Sync, M: Maker + Sync, G: Gate>(
    rt: &R,
    alloc: Global,
    script: &Script,
    clients: u32,
    workers: u32,
    maker: &M,
    gate: &G,
) -> Result<Desk, AllocError>
    requires some { 1 ≤ clients }
    requires few { clients ≤ most_clients }
    requires few_workers { workers ≤ most_workers }
    requires honest { M.honest maker.now }
    requires clients { All (λ l. line_client (line_view l) < clients) script.now.lines.items }
    // The desk is closed, each client's pass did just its lines, each admitted job is registered, and what each client was replied is
    // as its own lines determine by themselves.
    ensures serves { IfOk result (ServesScript clients (map line_view script.now.lines.items)) }
    ensures good { IfOk result IsGoodDesk }
{
    let own = clients + workers;
    let (desk, passes) = SharedDesk::new(rt, alloc, clients, own + 1)?;
    let dealt = deal(passes, clients)?;
    let passes = in_threads(rt, alloc, &desk, dealt, maker, gate, script)?;
    let mut desk = desk.finish(rt, passes);
    if !none_is_taken(&desk) {
        return Err(AllocError);
    }
    match work_plain(rt, alloc, &mut desk, own, maker) {
        WorkEnd::Drained => Ok(desk),
        WorkEnd::OutOfMemory => Err(AllocError),
        WorkEnd::Rejected(_, _) => unreachable!(),
    }
}
