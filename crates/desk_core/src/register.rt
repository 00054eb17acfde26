ghost use Rattle.std.specs.Prelude.{◌≡◌, ◌<◌, ◌≤◌, ℕ, length, slice_get, Some, IfOk};
ghost use Rattle.boot_program.specs.Batch.Limits.{most_batch_tasks};
ghost use Rattle.desk_core.specs.GoodDesks.{IsGoodDesk};
ghost use Rattle.desk_core.specs.Registrations.{IsRegisterEnd};
ghost use Rattle.desk_core.specs.Working.Registering.{certified_at, facts_kept, is_welcome as welcome_test, jobs_numbered, jobs_within, refused_end, registering_reply};
ghost use Rattle.desk_core.specs.Working.Steps.{CanGoOut};
ghost use Rattle.desk_core.specs.declared.batch.Batch.{Batch as BatchRecord};

use crate::batch::Batch;
use crate::desk::Desk;
use crate::entry::ENTRY_AND_CLOSE;
use crate::event::Event;
use crate::give_back::{held_by, phase_at};
use crate::job::Job;
use crate::phase::Phase;
use crate::register_end::RegisterEnd;
use crate::reply::Reply;
use crate::same_tasks::first_difference;
use crate::submit::write;
use boot_program::Certified;
use cairo_model::{Cert, Fact};
use std::alloc::{AllocError, Global};

impl Desk {
    /// Registers a batch that this pass has taken: its certificate is kept, and the facts of its jobs stand from then on. What isn't
    /// registered comes back.
    pub fn register(
        &mut self,
        alloc: Global,
        pass: u32,
        batch: u32,
        certified: Certified,
    ) -> RegisterEnd
        ensures end { IsRegisterEnd self.old self.new pass batch certified result }
        ensures good { IsGoodDesk self.old × IsGoodDesk self.new }
    {
        self.turns = self.turns.wrapping_add(1);
        let phase = phase_at(self.batches.as_slice(), batch);
        let held = held_by(self.batches.as_slice(), pass, batch);
        let kept = jobs_at(self.jobs.as_slice(), self.batches.as_slice(), batch);
        let differs = first_difference(certified.parcel().tasks.as_slice(), kept);
        let reply = reply_with(held, phase, differs);
        let Ok(()) = self.entries.reserve(ENTRY_AND_CLOSE) else {
            return RegisterEnd::OutOfMemory(certified);
        };
        if !is_welcome(held, differs) {
            write(
                &mut self.entries,
                pass,
                Event::Register(batch, differs),
                &reply,
            );
            return refused(held, phase, differs, certified);
        }
        let Ok(facts) = facts_of(alloc, kept) else {
            return RegisterEnd::OutOfMemory(certified);
        };
        let Ok(()) = self.registry.add_all(facts) else {
            return RegisterEnd::OutOfMemory(certified);
        };
        let (cert, _) = certified.into_parts();
        keep(&mut self.batches, batch, cert);
        write(
            &mut self.entries,
            pass,
            Event::Register(batch, differs),
            &reply,
        );
        RegisterEnd::Done
    }
}

// The jobs of the batch of this number, none where there is no such batch.
fn jobs_at<'a>(jobs: &'a [Job], batches: &[Batch], batch: u32) -> &'a [Job]
    requires { (b : ℕ) (x : BatchRecord) → slice_get batches.now b ≡ Some x → CanGoOut jobs.now x }
    ensures jobs { result.now ≡ jobs_numbered jobs.now batches.now batch }
    ensures few { length result.now ≤ most_batch_tasks }
{
    match batches.get(batch as usize) {
        Some(found) => stretch(jobs, found),
        None => jobs.split_at(0).0,
    }
}

fn stretch<'a>(jobs: &'a [Job], batch: &Batch) -> &'a [Job]
    requires { CanGoOut jobs.now batch.now }
    ensures jobs { result.now ≡ jobs_within jobs.now batch.now }
    ensures few { length result.now ≤ most_batch_tasks }
{
    let (_, rest) = jobs.split_at(batch.first as usize);
    let (part, _) = rest.split_at(batch.count as usize);
    part
}

// Copies of the facts of the jobs.
fn facts_of(alloc: Global, jobs: &[Job]) -> Result<Vec<Fact>, AllocError>
    ensures { IfOk result (λ v. v.items ≡ facts_kept jobs.now) }
{
    let mut facts = Vec::new(alloc);
    for job in jobs {
        facts.push(job.checked.fact().try_copy(alloc)?)?;
    }
    Ok(facts)
}

// Whether the pass holds the batch, and the parcel is the batch's.
fn is_welcome(held: Option<u32>, differs: Option<u32>) -> bool
    ensures { result ≡ welcome_test held differs }
{
    match (held, differs) {
        (None, _) => false,
        (Some(_), None) => true,
        (Some(_), Some(_)) => false,
    }
}

fn reply_with(held: Option<u32>, phase: Phase, differs: Option<u32>) -> Reply
    ensures { result ≡ registering_reply held phase differs }
{
    match (held, differs) {
        (None, _) => Reply::NotTaken(phase),
        (Some(_), None) => Reply::Registered,
        (Some(_), Some(index)) => Reply::Stranger(index),
    }
}

fn refused(
    held: Option<u32>,
    phase: Phase,
    differs: Option<u32>,
    certified: Certified,
) -> RegisterEnd
    ensures { result ≡ refused_end held phase differs certified }
{
    match (held, differs) {
        (None, _) => RegisterEnd::NotTaken(phase, certified),
        (Some(_), None) => RegisterEnd::Done,
        (Some(_), Some(index)) => RegisterEnd::Stranger(index, certified),
    }
}

// Marks the batch as registered, and moves its certificate in.
fn keep(batches: &mut Vec<Batch>, batch: u32, cert: Cert)
    requires { batch < length batches.old.items }
    ensures { batches.new.items ≡ certified_at batches.old.items batch cert }
{
    let found = &mut batches[batch as usize];
    found.phase = Phase::Registered;
    found.cert = Some(cert);
}
