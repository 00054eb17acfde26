ghost use Rattle.std.specs.Prelude.{◌≡◌, ◌++◌, ◌<◌, ◌^◌, OnOk, length};
ghost use Rattle.std.specs.List.{flat_map};
ghost use Rattle.desk_script.specs.Transcripts.{batch_text, batches_text, job_text, jobs_of_batch, steps_of_jobs};

use cairo_model::{put_decimal, put_number};
use desk_core::{Batch, Job};
use std::alloc::{AllocError, Global};

/// Appends the lines of the batches of a desk with these jobs.
pub(crate) fn put_batches(
    alloc: Global,
    text: &mut Vec<u8>,
    jobs: &[Job],
    batches: &[Batch],
) -> Result<(), AllocError>
    ensures { OnOk result (text.new.items ≡ text.old.items ++ batches_text jobs.now 0 batches.now) }
{
    for number in 0..batches.len() {
        let batch = &batches[number];
        put_batch(alloc, text, number as u64, jobs_of(jobs, batch))?;
    }
    Ok(())
}

// The jobs of a batch.
fn jobs_of<'a>(jobs: &'a [Job], batch: &Batch) -> &'a [Job]
    ensures jobs { result.now ≡ jobs_of_batch jobs.now batch.now }
    ensures few { length result.now < 2 ^ 32 }
{
    let first = (batch.first as usize).min(jobs.len());
    let after = &jobs[first..];
    let count = (batch.count as usize).min(after.len());
    &after[..count]
}

// Appends the line of the batch of this number, by its jobs.
fn put_batch(alloc: Global, text: &mut Vec<u8>, number: u64, jobs: &[Job]) -> Result<(), AllocError>
    requires { length jobs.now < 2 ^ 32 }
    ensures { OnOk result (text.new.items ≡ text.old.items ++ batch_text number jobs.now) }
{
    text.extend_from_slice(b"batch")?;
    put_number(alloc, text, number)?;
    text.extend_from_slice(b" steps")?;
    put_number(alloc, text, steps_of(jobs))?;
    text.extend_from_slice(b" jobs")?;
    put_jobs(alloc, text, jobs)?;
    text.extend_from_slice(b"\n")
}

// The steps of the jobs together.
fn steps_of(jobs: &[Job]) -> u64
    requires { length jobs.now < 2 ^ 32 }
    ensures { result ≡ steps_of_jobs jobs.now }
{
    let mut total: u64 = 0;
    for job in jobs {
        total += u64::from(job.checked.pie().steps);
    }
    total
}

// Appends each job.
fn put_jobs(alloc: Global, text: &mut Vec<u8>, jobs: &[Job]) -> Result<(), AllocError>
    ensures { OnOk result (text.new.items ≡ text.old.items ++ flat_map job_text jobs.now) }
{
    for job in jobs {
        put_job(alloc, text, job)?;
    }
    Ok(())
}

// Appends a job's client and number.
fn put_job(alloc: Global, text: &mut Vec<u8>, job: &Job) -> Result<(), AllocError>
    ensures { OnOk result (text.new.items ≡ text.old.items ++ job_text job.now) }
{
    put_number(alloc, text, u64::from(job.client))?;
    text.push(b'.')?;
    put_decimal(alloc, text, u64::from(job.number))
}
