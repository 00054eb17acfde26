ghost use Rattle.std.specs.Prelude.{◌<◌, ◌≤◌, All, IfOk, map};
ghost use Rattle.desk_core.specs.GoodDesks.{IsGoodDesk};
ghost use Rattle.desk_core.specs.Limits.{most_clients};
ghost use Rattle.desk_script.specs.Views.{line_view};
ghost use Rattle.script_runner.specs.Lines.{line_client};
ghost use Rattle.script_runner.specs.Runs.{RunsScript};

use crate::doing::{do_lines, settle};
use batch_runner::Maker;
use desk_core::Desk;
use desk_script::Script;
use std::alloc::{AllocError, Global};
use std::thread::Threads;

/// Runs a script for so many clients: its lines in order on a desk of its own, each as its client's pass. At the end a pass of
/// its own, which has the number behind the clients', closes the desk and makes all batches (docs/SERVICE.md).
pub fn run_script<R: Threads + Sync, M: Maker>(
    rt: &R,
    alloc: Global,
    script: &Script,
    clients: u32,
    maker: &M,
) -> Result<Desk, AllocError>
    requires some { 1 ≤ clients }
    requires few { clients ≤ most_clients }
    requires honest { M.honest maker.now }
    requires clients { All (λ l. line_client (line_view l) < clients) script.now.lines.items }
    // The desk has been closed, each client's pass did just its lines, in their order, and each admitted job is registered.
    ensures runs { IfOk result (RunsScript clients (map line_view script.now.lines.items)) }
    ensures good { IfOk result IsGoodDesk }
{
    let mut desk = Desk::new(alloc, clients)?;
    do_lines(rt, alloc, &mut desk, script.lines.as_slice(), maker)?;
    desk.close(clients)?;
    settle(rt, alloc, &mut desk, clients, maker)?;
    Ok(desk)
}
