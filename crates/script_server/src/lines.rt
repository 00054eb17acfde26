// A client's lines at a shared desk.
ghost use Rattle.std.specs.Prelude.{◌≡◌, ◌<◌, [], ◌∷◌, IfOk, map};
ghost use Rattle.desk_script.specs.Views.{line_view};
ghost use Rattle.script_runner.specs.Lines.{client_lines, line_client};
ghost use Rattle.script_server.specs.Working.PassLines.{IsSamePass, PassDoesLine, PassDoesLines};
ghost use Rattle.session_desk.specs.SeenDesks.{IsIdlePass};

use batch_runner::Maker;
use batch_workers::{Bell, Gate, Point, WorkEnd, work_idle};
use desk_script::Line;
use session_desk::{Held, SharedDesk, offer_of};
use std::alloc::{AllocError, Global};
use std::sync::Wait;
use std::thread::Threads;
use turn_lock::Pass;

/// Does those of the lines that are the pass's own, one after another.
pub(crate) fn do_lines<R: Threads + Wait + Sync, M: Maker, G: Gate>(
    rt: &R,
    alloc: Global,
    desk: &SharedDesk,
    pass: &mut Pass<Held>,
    maker: &M,
    gate: &G,
    bell: &Bell,
    lines: &[Line],
) -> Result<(), AllocError>
    requires own { pass.old.lock ≡ desk.now.lock }
    requires idle { IsIdlePass pass.old }
    requires honest { M.honest maker.now }
    requires number { pass.old.number < pass.old.width }
    ensures same { IsSamePass pass.old pass.new }
    ensures did { IfOk result (λ _. PassDoesLines (client_lines pass.old.number (map line_view lines.now)) pass.old pass.new) }
{
    for line in lines {
        do_if_own(rt, alloc, desk, pass, maker, gate, bell, line)?;
    }
    Ok(())
}

// Does a line if it is the pass's own.
fn do_if_own<R: Threads + Wait + Sync, M: Maker, G: Gate>(
    rt: &R,
    alloc: Global,
    desk: &SharedDesk,
    pass: &mut Pass<Held>,
    maker: &M,
    gate: &G,
    bell: &Bell,
    line: &Line,
) -> Result<(), AllocError>
    requires own { pass.old.lock ≡ desk.now.lock }
    requires idle { IsIdlePass pass.old }
    requires honest { M.honest maker.now }
    requires number { pass.old.number < pass.old.width }
    ensures same { IsSamePass pass.old pass.new }
    ensures did { IfOk result (λ _. PassDoesLines (client_lines pass.old.number (line_view line.now ∷ [])) pass.old pass.new) }
{
    if whose(line) != pass.number() {
        return Ok(());
    }
    do_line(rt, alloc, desk, pass, maker, gate, bell, line)?;
    Ok(())
}

// Whose line it is.
fn whose(line: &Line) -> u32
    ensures { result ≡ line_client (line_view line.now) }
{
    match line {
        Line::Submit(client, _) => *client,
        Line::Ask(client, _) => *client,
        Line::Status(client, _) => *client,
        Line::Settle(client) => *client,
    }
}

fn do_line<R: Threads + Wait + Sync, M: Maker, G: Gate>(
    rt: &R,
    alloc: Global,
    desk: &SharedDesk,
    pass: &mut Pass<Held>,
    maker: &M,
    gate: &G,
    bell: &Bell,
    line: &Line,
) -> Result<(), AllocError>
    requires own { pass.old.lock ≡ desk.now.lock }
    requires idle { IsIdlePass pass.old }
    requires honest { M.honest maker.now }
    requires number { pass.old.number < pass.old.width }
    requires client { line_client (line_view line.now) ≡ pass.old.number }
    ensures same { IsSamePass pass.old pass.new }
    ensures did { IfOk result (λ _. PassDoesLine (line_view line.now) pass.old pass.new) }
{
    match line {
        Line::Submit(client, bytes) => {
            let offer = offer_of(alloc, bytes.as_slice())?;
            gate.reach(rt, Point::BeforeSubmit(*client));
            desk.submit(rt, alloc, pass, *client, offer)?;
            bell.ring(rt);
            Ok(())
        }
        Line::Ask(client, fact) => {
            desk.ask(rt, alloc, pass, *client, fact)?;
            Ok(())
        }
        Line::Status(client, number) => {
            desk.status(rt, pass, *client, *number)?;
            Ok(())
        }
        Line::Settle(_) => match work_idle(rt, alloc, desk, pass, maker, gate) {
            WorkEnd::Drained => Ok(()),
            WorkEnd::OutOfMemory => Err(AllocError),
            WorkEnd::Rejected(_, _) => unreachable!(),
        },
    }
}
