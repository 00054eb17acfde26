ghost use Rattle.std.specs.Prelude.{◌≡◌, ◌++◌, ◌<◌, ◌≤◌, IfOk, OnOk};
ghost use Rattle.work_maker.specs.Generator.{down_digits, lines_of_job, rounds_of_job, script_of, status_line, submit_line};
ghost use Rattle.work_maker.specs.Limits.{most_jobs, most_rounds};

use crate::countdown::down;
use crate::limits::{CLIENTS, JOBS_TO_A_STATUS, MOST_ROUNDS, ROUNDS_FACTOR, ROUNDS_SHIFT};
use cairo_model::{put_number, put_pair};
use pie_format::write;
use std::alloc::{AllocError, Global};

/// The script of so many jobs (docs/SERVICE.md): their clients take turns, each job is the PIE of a countdown, and the last of
/// eight jobs is asked about.
pub fn make_script(alloc: Global, jobs: u32) -> Result<Vec<u8>, AllocError>
    requires { jobs ≤ most_jobs }
    ensures { IfOk result (λ script. script.items ≡ script_of jobs) }
{
    let mut script = Vec::new(alloc);
    for job in 0..jobs {
        put_job(alloc, &mut script, job)?;
    }
    Ok(script)
}

fn put_job(alloc: Global, script: &mut Vec<u8>, job: u32) -> Result<(), AllocError>
    requires { job < most_jobs }
    ensures { OnOk result (script.new.items ≡ script.old.items ++ lines_of_job job) }
{
    put_submit(alloc, script, job)?;
    if job % JOBS_TO_A_STATUS + 1 == JOBS_TO_A_STATUS {
        put_status(alloc, script, job)?;
    }
    Ok(())
}

fn put_submit(alloc: Global, script: &mut Vec<u8>, job: u32) -> Result<(), AllocError>
    requires { job < most_jobs }
    ensures { OnOk result (script.new.items ≡ script.old.items ++ submit_line job) }
{
    script.extend_from_slice(b"submit")?;
    put_number(alloc, script, u64::from(job % CLIENTS))?;
    script.push(b' ')?;
    put_down(alloc, script, rounds_of(job))?;
    script.push(b'\n')?;
    Ok(())
}

// The file of the PIE of DOWN in hexadecimal.
#[tactic(auto, unfolding(crate::specs::Generator::down_digits))]
fn put_down(alloc: Global, script: &mut Vec<u8>, rounds: u32) -> Result<(), AllocError>
    requires { rounds ≤ most_rounds }
    ensures { OnOk result (script.new.items ≡ script.old.items ++ down_digits rounds) }
{
    let pie = down(alloc, rounds)?;
    let file = write(alloc, &pie)?;
    let digits = hex::encode(alloc, file.as_slice())?;
    script.extend_from_slice(digits.as_bytes())
}

fn put_status(alloc: Global, script: &mut Vec<u8>, job: u32) -> Result<(), AllocError>
    ensures { OnOk result (script.new.items ≡ script.old.items ++ status_line job) }
{
    script.extend_from_slice(b"status")?;
    put_pair(
        alloc,
        script,
        u64::from(job % CLIENTS),
        u64::from(job / CLIENTS),
    )?;
    script.push(b'\n')?;
    Ok(())
}

// The rounds of the job of this number.
fn rounds_of(job: u32) -> u32
    requires { job < most_jobs }
    ensures is { result ≡ rounds_of_job job }
    ensures few { result ≤ most_rounds }
{
    1 + (ROUNDS_FACTOR * job + ROUNDS_SHIFT) % MOST_ROUNDS
}
