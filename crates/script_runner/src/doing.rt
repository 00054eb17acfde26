ghost use Rattle.std.specs.Prelude.{◌<◌, All, IfOk, map, []};
ghost use Rattle.desk_core.specs.DeskRecords.{plain_of};
ghost use Rattle.desk_core.specs.GoodDesks.{IsGoodDesk};
ghost use Rattle.desk_script.specs.Lines.{asks, asks_status, submits};
ghost use Rattle.desk_script.specs.Views.{line_view};
ghost use Rattle.script_runner.specs.Lines.{line_client};
ghost use Rattle.script_runner.specs.Working.Doing.{DidLine, DidLines, NoneTaken, Settled};

use batch_runner::Maker;
use batch_workers::{WorkEnd, work_plain};
use cairo_model::Fact;
use desk_core::Desk;
use desk_script::Line;
use session_desk::offer_of;
use std::alloc::{AllocError, Global};
use std::thread::Threads;

/// Does the lines one after another, on a desk at which nothing happened so far.
pub(crate) fn do_lines<R: Threads + Sync, M: Maker>(
    rt: &R,
    alloc: Global,
    desk: &mut Desk,
    lines: &[Line],
    maker: &M,
) -> Result<(), AllocError>
    requires honest { M.honest maker.now }
    requires clients { All (λ l. line_client (line_view l) < desk.old.clients) lines.now }
    requires fresh { DidLines desk.old.clients [] desk.old }
    ensures did { IfOk result (λ _. DidLines desk.old.clients (map line_view lines.now) desk.new) }
{
    for line in lines {
        do_line(rt, alloc, desk, line, maker)?;
    }
    Ok(())
}

// Does one line, as its client's pass.
fn do_line<R: Threads + Sync, M: Maker>(
    rt: &R,
    alloc: Global,
    desk: &mut Desk,
    line: &Line,
    maker: &M,
) -> Result<(), AllocError>
    requires honest { M.honest maker.now }
    requires client { line_client (line_view line.now) < desk.old.clients }
    requires free { NoneTaken (plain_of desk.old) }
    ensures did { IfOk result (λ _. DidLine (line_view line.now) desk.old desk.new) }
    ensures good { IsGoodDesk desk.old × IsGoodDesk desk.new }
{
    match line {
        Line::Submit(client, bytes) => submit_bytes(alloc, desk, *client, bytes.as_slice()),
        Line::Ask(client, fact) => ask_fact(alloc, desk, *client, fact),
        Line::Status(client, number) => ask_status(desk, *client, *number),
        Line::Settle(client) => settle(rt, alloc, desk, *client, maker),
    }
}

// Hands in what a client's bytes are.
fn submit_bytes(alloc: Global, desk: &mut Desk, client: u32, bytes: &[u8]) -> Result<(), AllocError>
    requires client { client < desk.old.clients }
    requires free { NoneTaken (plain_of desk.old) }
    ensures did { IfOk result (λ _. DidLine (submits client bytes.now) desk.old desk.new) }
    ensures good { IsGoodDesk desk.old × IsGoodDesk desk.new }
{
    let _clients = desk.clients();
    let offer = offer_of(alloc, bytes)?;
    desk.submit(alloc, client, client, offer)?;
    Ok(())
}

fn ask_fact(alloc: Global, desk: &mut Desk, client: u32, fact: &Fact) -> Result<(), AllocError>
    requires client { client < desk.old.clients }
    requires free { NoneTaken (plain_of desk.old) }
    ensures did { IfOk result (λ _. DidLine (asks client fact.now) desk.old desk.new) }
    ensures good { IsGoodDesk desk.old × IsGoodDesk desk.new }
{
    desk.ask(alloc, client, client, fact)?;
    Ok(())
}

fn ask_status(desk: &mut Desk, client: u32, number: u32) -> Result<(), AllocError>
    requires client { client < desk.old.clients }
    requires free { NoneTaken (plain_of desk.old) }
    ensures did { IfOk result (λ _. DidLine (asks_status client number) desk.old desk.new) }
    ensures good { IsGoodDesk desk.old × IsGoodDesk desk.new }
{
    desk.status(client, client, number)?;
    Ok(())
}

/// Has this pass make all batches.
pub(crate) fn settle<R: Threads + Sync, M: Maker>(
    rt: &R,
    alloc: Global,
    desk: &mut Desk,
    pass: u32,
    maker: &M,
) -> Result<(), AllocError>
    requires honest { M.honest maker.now }
    requires free { NoneTaken (plain_of desk.old) }
    ensures settled { IfOk result (λ _. Settled pass desk.old desk.new) }
    ensures good { IsGoodDesk desk.old × IsGoodDesk desk.new }
{
    match work_plain(rt, alloc, desk, pass, maker) {
        WorkEnd::Drained => Ok(()),
        WorkEnd::OutOfMemory => Err(AllocError),
        WorkEnd::Rejected(_, _) => unreachable!(),
    }
}
