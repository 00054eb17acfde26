ghost use Rattle.std.specs.Prelude.{◌≤◌};
ghost use Rattle.desk_core.specs.Limits.{most_clients};
ghost use Rattle.script_server.specs.Limits.{most_workers};
ghost use Rattle.shared_prover_cli.specs.Commands.{IsPlainCommand};
ghost use Rattle.shared_prover_cli.specs.Runs.{stream};
ghost use Rattle.shared_prover_cli.specs.Working.Replying.{CanBeAsked, ComesTo, ComesWith};

mod boot;
mod check;
mod list;
mod make;
mod place;
mod replay;
mod run;
mod scripts;
mod serve;

use crate::answers::boot::boot_answer;
use crate::answers::check::check_answer;
use crate::answers::list::list_answer;
use crate::answers::make::make_answer;
use crate::answers::place::place_answer;
use crate::answers::replay::replay_answer;
use crate::answers::run::run_answer;
use crate::answers::scripts::{batch_answer, export_answer, trial_answer};
use crate::answers::serve::serve_answer;
use crate::limits::INPUT_LIMIT;
use crate::reply::Reply;
use crate::stream::Source;
use crate::told::{Told, without_desk};
use crate::whole::{InputFault, read_into, read_whole};
use batch_workers::Gate;
use cert_format::CertReader;
use command_words::Command;
use std::alloc::Global;
use std::sync::Wait;
use std::thread::Threads;

/// Reads the input of a command of `run_plain`, if it has one, makes its reply, and hands out the desk at which it ran a script,
/// if it did.
#[tactic(auto, using(crate::proofs::ToldLemmas::told_replies))]
pub fn reply_to<R: Threads + Sync, S: Source>(
    rt: &R,
    alloc: Global,
    command: Command,
    source: &mut S,
) -> Result<Told, InputFault>
    requires asked { CanBeAsked command }
    requires own { IsPlainCommand command }
    ensures { ComesWith command (stream S.left S.faults source.old source.new) result }
{
    match command {
        Command::Replay => without_desk(replay_reply(alloc, source)),
        Command::Place => without_desk(place_reply(alloc, source)),
        Command::List => without_desk(list_reply(alloc, source)),
        Command::Check => without_desk(check_reply(rt, alloc, source)),
        Command::Run => without_desk(run_reply(alloc, source)),
        Command::Boot => Ok(Told {
            reply: boot_answer(alloc)?,
            desk: None,
        }),
        Command::Make(jobs) => Ok(Told {
            reply: make_answer(alloc, jobs)?,
            desk: None,
        }),
        Command::Batch(clients) => batch_reply(rt, alloc, source, clients),
        Command::Export(clients, batch) => export_reply(rt, alloc, source, clients, batch),
        Command::Trial(jobs) => Ok(trial_answer(rt, alloc, jobs)?),
        Command::Serve(..) => unreachable!(),
    }
}

fn replay_reply<S: Source>(alloc: Global, source: &mut S) -> Result<Reply, InputFault>
    ensures { ComesTo Command.Replay (stream S.left S.faults source.old source.new) result }
{
    let file = read_whole(alloc, source, INPUT_LIMIT)?;
    Ok(replay_answer(alloc, file.as_slice())?)
}

fn place_reply<S: Source>(alloc: Global, source: &mut S) -> Result<Reply, InputFault>
    ensures { ComesTo Command.Place (stream S.left S.faults source.old source.new) result }
{
    let file = read_whole(alloc, source, INPUT_LIMIT)?;
    Ok(place_answer(alloc, file.as_slice())?)
}

fn list_reply<S: Source>(alloc: Global, source: &mut S) -> Result<Reply, InputFault>
    ensures { ComesTo Command.List (stream S.left S.faults source.old source.new) result }
{
    let file = read_whole(alloc, source, INPUT_LIMIT)?;
    Ok(list_answer(alloc, file.as_slice())?)
}

fn run_reply<S: Source>(alloc: Global, source: &mut S) -> Result<Reply, InputFault>
    ensures { ComesTo Command.Run (stream S.left S.faults source.old source.new) result }
{
    let text = read_whole(alloc, source, INPUT_LIMIT)?;
    Ok(run_answer(alloc, text.as_slice())?)
}

// The certificate is read as its bytes come, and they aren't kept.
fn check_reply<R: Threads + Sync, S: Source>(
    rt: &R,
    alloc: Global,
    source: &mut S,
) -> Result<Reply, InputFault>
    ensures { ComesTo Command.Check (stream S.left S.faults source.old source.new) result }
{
    let mut reader = CertReader::new(alloc);
    read_into(alloc, source, INPUT_LIMIT, &mut reader)?;
    Ok(check_answer(rt, alloc, reader)?)
}

fn batch_reply<R: Threads + Sync, S: Source>(
    rt: &R,
    alloc: Global,
    source: &mut S,
    clients: u32,
) -> Result<Told, InputFault>
    requires some { 1 ≤ clients }
    requires few { clients ≤ most_clients }
    ensures { ComesWith (Command.Batch clients) (stream S.left S.faults source.old source.new) result }
{
    let script = read_whole(alloc, source, INPUT_LIMIT)?;
    Ok(batch_answer(rt, alloc, script.as_slice(), clients)?)
}

fn export_reply<R: Threads + Sync, S: Source>(
    rt: &R,
    alloc: Global,
    source: &mut S,
    clients: u32,
    batch: u32,
) -> Result<Told, InputFault>
    requires some { 1 ≤ clients }
    requires few { clients ≤ most_clients }
    ensures { ComesWith (Command.Export clients batch) (stream S.left S.faults source.old source.new) result }
{
    let script = read_whole(alloc, source, INPUT_LIMIT)?;
    Ok(export_answer(rt, alloc, script.as_slice(), clients, batch)?)
}

/// Reads a script, makes the reply that serves it, and hands out the desk.
pub fn serve_reply<R: Threads + Wait + Sync, S: Source, G: Gate>(
    rt: &R,
    alloc: Global,
    source: &mut S,
    clients: u32,
    workers: u32,
    gate: &G,
) -> Result<Told, InputFault>
    requires some { 1 ≤ clients }
    requires few { clients ≤ most_clients }
    requires few_workers { workers ≤ most_workers }
    ensures { ComesWith (Command.Serve clients workers) (stream S.left S.faults source.old source.new) result }
{
    let script = read_whole(alloc, source, INPUT_LIMIT)?;
    Ok(serve_answer(rt, alloc, script.as_slice(), clients, workers, gate)?)
}
