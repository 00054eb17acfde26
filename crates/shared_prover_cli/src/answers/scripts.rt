ghost use Rattle.std.specs.Prelude.{◌≡◌, ◌≤◌, Err, IfOk};
ghost use Rattle.desk_core.specs.GoodDesks.{IsGoodDesk};
ghost use Rattle.desk_core.specs.Limits.{most_clients};
ghost use Rattle.desk_script.specs.Scripts.{IsFirstBadScriptLine};
ghost use Rattle.script_runner.specs.Runs.{RunsScript};
ghost use Rattle.work_maker.specs.Limits.{most_jobs};
ghost use Rattle.shared_prover_cli.specs.Answers.Scripts.{DidScript, ScriptAnswer, TellsBatchOf, TellsNumbers, TellsTranscript, TrialAnswer};
ghost use Rattle.shared_prover_cli.specs.Working.Replies.{reply_view};
ghost use Rattle.shared_prover_cli.specs.Working.Scripting.{AllCertified, IsCertified, IsFileOfBatch, NamesBadLine};

use crate::reply::{Outcome, Reply};
use crate::script_texts::{bad_line, few_batches_line, trial_lines};
use crate::told::Told;
use batch_runner::BootMaker;
use cairo_model::End;
use cert_format::write_cert;
use desk_core::{Batch, Desk};
use desk_script::{ScriptRefusal, read_script, script_is_not_refused, transcript};
use made_scripts::made_script_is_script;
use script_runner::run_script;
use std::alloc::{AllocError, Global};
use std::thread::Threads;
use work_maker::limits::CLIENTS as SCRIPT_CLIENTS;
use work_maker::make_script;

/// The transcript of the script that the input is.
#[tactic(auto, using(crate::proofs::ScriptLemmas::tells_bad_line))]
pub fn batch_answer<R: Threads + Sync>(
    rt: &R,
    alloc: Global,
    input: &[u8],
    clients: u32,
) -> Result<Told, AllocError>
    requires some { 1 ≤ clients }
    requires few { clients ≤ most_clients }
    ensures { IfOk result (λ told. ScriptAnswer RunsScript clients TellsTranscript input.now (reply_view told.reply) told.desk) }
{
    match ran(rt, alloc, input, clients) {
        Ok(desk) => Ok(Told {
            reply: transcript_reply(alloc, &desk)?,
            desk: Some(desk),
        }),
        Err(End::Refused(refusal)) => Ok(Told {
            reply: bad_line_reply(alloc, refusal)?,
            desk: None,
        }),
        Err(End::OutOfMemory) => Err(AllocError),
    }
}

/// The certificate of the batch of this number, of the script that the input is.
#[tactic(auto, using(crate::proofs::ScriptLemmas::tells_bad_line))]
pub fn export_answer<R: Threads + Sync>(
    rt: &R,
    alloc: Global,
    input: &[u8],
    clients: u32,
    batch: u32,
) -> Result<Told, AllocError>
    requires some { 1 ≤ clients }
    requires few { clients ≤ most_clients }
    ensures { IfOk result (λ told. ScriptAnswer RunsScript clients (TellsBatchOf batch) input.now (reply_view told.reply) told.desk) }
{
    match ran(rt, alloc, input, clients) {
        Ok(desk) => Ok(Told {
            reply: batch_reply(alloc, &desk, batch)?,
            desk: Some(desk),
        }),
        Err(End::Refused(refusal)) => Ok(Told {
            reply: bad_line_reply(alloc, refusal)?,
            desk: None,
        }),
        Err(End::OutOfMemory) => Err(AllocError),
    }
}

/// The numbers of the script of so many jobs.
pub fn trial_answer<R: Threads + Sync>(rt: &R, alloc: Global, jobs: u32) -> Result<Told, AllocError>
    requires { jobs ≤ most_jobs }
    ensures { IfOk result (λ told. TrialAnswer jobs (reply_view told.reply) told.desk) }
{
    made_script_is_script();
    script_is_not_refused();
    let script = make_script(alloc, jobs)?;
    match ran(rt, alloc, script.as_slice(), SCRIPT_CLIENTS) {
        Ok(desk) => Ok(Told {
            reply: trial_reply(alloc, &desk)?,
            desk: Some(desk),
        }),
        Err(End::Refused(_)) => unreachable!(),
        Err(End::OutOfMemory) => Err(AllocError),
    }
}

// The desk at which the script was run that the bytes are.
#[tactic(auto, using(crate::proofs::ScriptLemmas::did_script))]
fn ran<R: Threads + Sync>(
    rt: &R,
    alloc: Global,
    bytes: &[u8],
    clients: u32,
) -> Result<Desk, End<ScriptRefusal>>
    requires some { 1 ≤ clients }
    requires few { clients ≤ most_clients }
    ensures ran { IfOk result (DidScript RunsScript clients bytes.now) }
    ensures refused { (r : ScriptRefusal) → result ≡ Err (End.Refused r) → IsFirstBadScriptLine clients bytes.now r }
{
    let script = match read_script(alloc, bytes, clients) {
        Ok(script) => script,
        Err(End::Refused(refusal)) => return Err(End::Refused(refusal)),
        Err(End::OutOfMemory) => return Err(End::OutOfMemory),
    };
    match run_script(rt, alloc, &script, clients, &BootMaker) {
        Ok(desk) => Ok(desk),
        Err(AllocError) => Err(End::OutOfMemory),
    }
}

/// The reply to bytes that are no script.
pub fn bad_line_reply(alloc: Global, refusal: ScriptRefusal) -> Result<Reply, AllocError>
    ensures { IfOk result (λ reply. NamesBadLine refusal (reply_view reply)) }
{
    Ok(Reply {
        outcome: Outcome::Script,
        text: bad_line(alloc, refusal)?,
    })
}

/// The reply that tells the transcript.
pub fn transcript_reply(alloc: Global, desk: &Desk) -> Result<Reply, AllocError>
    ensures { IfOk result (λ reply. TellsTranscript desk.now (reply_view reply)) }
{
    Ok(Reply {
        outcome: Outcome::Done,
        text: transcript(alloc, desk)?,
    })
}

// The certificate of a batch, or how few there are.
fn batch_reply(alloc: Global, desk: &Desk, number: u32) -> Result<Reply, AllocError>
    requires kept { AllCertified desk.now.batches }
    ensures { IfOk result (λ reply. TellsBatchOf number desk.now (reply_view reply)) }
{
    let batches = desk.batches();
    match batches.get(number as usize) {
        Some(batch) => Ok(Reply {
            outcome: Outcome::Done,
            text: certificate_file(alloc, batch)?,
        }),
        None => Ok(Reply {
            outcome: Outcome::Refused,
            text: few_batches_line(alloc, number, batches.len())?,
        }),
    }
}

// The file of the certificate that a registered batch keeps.
fn certificate_file(alloc: Global, batch: &Batch) -> Result<Vec<u8>, AllocError>
    requires kept { IsCertified batch.now }
    ensures { IfOk result (λ file. IsFileOfBatch batch.now file.items) }
{
    match &batch.cert {
        Some(cert) => write_cert(alloc, cert),
        None => unreachable!(),
    }
}

fn trial_reply(alloc: Global, desk: &Desk) -> Result<Reply, AllocError>
    requires good { IsGoodDesk desk.now }
    ensures { IfOk result (λ reply. TellsNumbers desk.now (reply_view reply)) }
{
    Ok(Reply {
        outcome: Outcome::Done,
        text: trial_lines(alloc, desk)?,
    })
}
