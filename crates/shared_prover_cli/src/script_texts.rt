ghost use Rattle.std.specs.Prelude.{◌≡◌, ◌++◌, ◌<◌, ◌^◌, IfOk, OnOk, length};
ghost use Rattle.desk_core.specs.GoodDesks.{IsGoodDesk};
ghost use Rattle.desk_script.specs.Transcripts.{steps_of_jobs};
ghost use Rattle.shared_prover_cli.specs.Answers.Scripts.{bad_line_text, count_line, few_batches_text, trial_text};

use cairo_model::{put_number, put_pair};
use desk_core::{Desk, Job};
use desk_script::ScriptRefusal;
use std::alloc::{AllocError, Global};

/// The line of a script that is refused.
pub fn bad_line(alloc: Global, refusal: ScriptRefusal) -> Result<Vec<u8>, AllocError>
    ensures { IfOk result (λ text. text.items ≡ bad_line_text refusal) }
{
    let mut text = b"script".to_vec(alloc)?;
    put_pair(
        alloc,
        &mut text,
        u64::from(refusal.line),
        refusal.kind.number(),
    )?;
    text.push(b'\n')?;
    Ok(text)
}

/// The line that there are only so many batches.
pub fn few_batches_line(alloc: Global, batch: u32, count: usize) -> Result<Vec<u8>, AllocError>
    ensures { IfOk result (λ text. text.items ≡ few_batches_text batch count) }
{
    let mut text = b"refused batch".to_vec(alloc)?;
    put_pair(alloc, &mut text, u64::from(batch), count as u64)?;
    text.push(b'\n')?;
    Ok(text)
}

/// The lines with the numbers of a desk.
#[tactic(auto, using(crate::proofs::ScriptLemmas::desk_counts))]
pub fn trial_lines(alloc: Global, desk: &Desk) -> Result<Vec<u8>, AllocError>
    requires good { IsGoodDesk desk.now }
    ensures { IfOk result (λ text. text.items ≡ trial_text desk.now) }
{
    let facts = desk.registry().sorted(alloc)?;
    let mut text = Vec::new(alloc);
    put_count(alloc, &mut text, b"jobs", desk.jobs().len() as u64)?;
    put_count(alloc, &mut text, b"batches", desk.batches().len() as u64)?;
    put_count(alloc, &mut text, b"facts", facts.len() as u64)?;
    put_count(alloc, &mut text, b"steps", steps_of(desk.jobs()))?;
    Ok(text)
}

// Appends a line with a number.
fn put_count(alloc: Global, text: &mut Vec<u8>, name: &[u8], count: u64) -> Result<(), AllocError>
    ensures { OnOk result (text.new.items ≡ text.old.items ++ count_line name.now count) }
{
    text.extend_from_slice(name)?;
    put_number(alloc, text, count)?;
    text.push(b'\n')?;
    Ok(())
}

// The steps of the jobs together.
fn steps_of(jobs: &[Job]) -> u64
    requires { length jobs.now < 2 ^ 32 }
    ensures { result ≡ steps_of_jobs jobs.now }
{
    let mut total: u64 = 0;
    for job in jobs {
        total += u64::from(job.checked.pie().steps);
    }
    total
}
