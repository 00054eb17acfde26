ghost use Rattle.std.specs.Prelude.{◌≡◌, ◌≤◌, Err, IfOk};
ghost use Rattle.desk_core.specs.Limits.{most_clients};
ghost use Rattle.desk_script.specs.Scripts.{IsFirstBadScriptLine};
ghost use Rattle.script_runner.specs.Serving.{ServesScript};
ghost use Rattle.script_server.specs.Limits.{most_workers};
ghost use Rattle.shared_prover_cli.specs.Answers.Scripts.{DidScript, ScriptAnswer, TellsTranscript};
ghost use Rattle.shared_prover_cli.specs.Working.Replies.{reply_view};

use crate::answers::scripts::{bad_line_reply, transcript_reply};
use crate::told::Told;
use batch_runner::BootMaker;
use batch_workers::Gate;
use cairo_model::End;
use desk_core::Desk;
use desk_script::{ScriptRefusal, read_script_by_threads};
use script_server::serve_script;
use std::alloc::{AllocError, Global};
use std::sync::Wait;
use std::thread::Threads;

/// The transcript of the script that the input is, where threads serve it.
#[tactic(auto, using(crate::proofs::ScriptLemmas::tells_bad_line))]
pub fn serve_answer<R: Threads + Wait + Sync, G: Gate>(
    rt: &R,
    alloc: Global,
    input: &[u8],
    clients: u32,
    workers: u32,
    gate: &G,
) -> Result<Told, AllocError>
    requires some { 1 ≤ clients }
    requires few { clients ≤ most_clients }
    requires few_workers { workers ≤ most_workers }
    ensures { IfOk result (λ told. ScriptAnswer ServesScript clients TellsTranscript input.now (reply_view told.reply) told.desk) }
{
    match served(rt, alloc, input, clients, workers, gate) {
        Ok(desk) => Ok(Told {
            reply: transcript_reply(alloc, &desk)?,
            desk: Some(desk),
        }),
        Err(End::Refused(refusal)) => Ok(Told {
            reply: bad_line_reply(alloc, refusal)?,
            desk: None,
        }),
        Err(End::OutOfMemory) => Err(AllocError),
    }
}

// The desk at which the script was served that the bytes are.
#[tactic(auto, using(crate::proofs::ScriptLemmas::did_script))]
fn served<R: Threads + Wait + Sync, G: Gate>(
    rt: &R,
    alloc: Global,
    bytes: &[u8],
    clients: u32,
    workers: u32,
    gate: &G,
) -> Result<Desk, End<ScriptRefusal>>
    requires some { 1 ≤ clients }
    requires few { clients ≤ most_clients }
    requires few_workers { workers ≤ most_workers }
    ensures served { IfOk result (DidScript ServesScript clients bytes.now) }
    ensures refused { (r : ScriptRefusal) → result ≡ Err (End.Refused r) → IsFirstBadScriptLine clients bytes.now r }
{
    let script = match read_script_by_threads(rt, alloc, bytes, clients) {
        Ok(script) => script,
        Err(End::Refused(refusal)) => return Err(End::Refused(refusal)),
        Err(End::OutOfMemory) => return Err(End::OutOfMemory),
    };
    match serve_script(rt, alloc, &script, clients, workers, &BootMaker, gate) {
        Ok(desk) => Ok(desk),
        Err(AllocError) => Err(End::OutOfMemory),
    }
}
