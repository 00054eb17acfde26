ghost use Rattle.std.specs.Prelude.{◌≡◌, ◌<◌, ◌≤◌, ◌+◌, ℕ, take, length, slice_get, Some, IfOk, IfSome, OnErr};
ghost use Rattle.boot_program.specs.Batch.Parcels.{WithinBatch};
ghost use Rattle.desk_core.specs.DeskRecords.{tasks_in};
ghost use Rattle.desk_core.specs.Desks.{is_sealed as sealed_test};
ghost use Rattle.desk_core.specs.GoodDesks.{IsGoodDesk};
ghost use Rattle.desk_core.specs.Journals.{no_pie};
ghost use Rattle.desk_core.specs.Kept.{before_sealed};
ghost use Rattle.desk_core.specs.Turns.{IsTurn, handed_out, turned};
ghost use Rattle.desk_core.specs.Working.Steps.{CanGoOut, batches_moved, most_jobs, parcel_at as parcel_of, sealed_number, taken_by};
ghost use Rattle.desk_core.specs.declared.event.Event.TheVariants.{Take};
ghost use Rattle.desk_core.specs.declared.batch.Batch.{Batch as BatchRecord};

use crate::batch::Batch;
use crate::desk::Desk;
use crate::entry::ENTRY_AND_CLOSE;
use crate::event::Event;
use crate::job::Job;
use crate::phase::Phase;
use crate::reply::Reply;
use crate::submit::write;
use boot_program::Parcel;
use cairo_model::Checked;
use std::alloc::{AllocError, Global};

impl Desk {
    /// Takes the sealed batch with the least number, and hands out its tasks in memory of their own. After want of memory only the
    /// count of turns differs.
    pub fn take(&mut self, alloc: Global, pass: u32) -> Result<(Reply, Option<Parcel>), AllocError>
        ensures ok { IfOk result (λ r. IsTurn self.old self.new pass Take no_pie r.0) }
        ensures parcel { IfOk result (λ r. r.1 ≡ handed_out self.old r.0) }
        ensures err { OnErr result (self.new ≡ turned self.old) }
        ensures good { IsGoodDesk self.old × IsGoodDesk self.new }
    {
        self.turns = self.turns.wrapping_add(1);
        let found = next_sealed(self.next, self.batches.as_slice());
        let parcel = parcel_at(alloc, self.jobs.as_slice(), self.batches.as_slice(), found)?;
        self.entries.reserve(ENTRY_AND_CLOSE)?;
        let reply = taken_reply(found);
        move_batch(&mut self.batches, found, Phase::Taken(pass));
        self.next = sealed_from(self.next, self.batches.as_slice());
        write(&mut self.entries, pass, Event::Take, &reply);
        Ok((reply, parcel))
    }
}

// The number of the next sealed batch, by how many stand before it.
fn next_sealed(next: u32, batches: &[Batch]) -> Option<u32>
    ensures found { result ≡ sealed_number next (length batches.now) }
    ensures there { IfSome result (λ b. b < length batches.now) }
{
    if (next as usize) < batches.len() {
        Some(next)
    } else {
        None
    }
}

fn is_sealed(phase: &Phase) -> bool
    ensures { result ≡ sealed_test phase.now }
{
    match phase {
        Phase::Sealed => true,
        Phase::Taken(_) => false,
        Phase::Registered => false,
        Phase::NoBatch => false,
    }
}

fn taken_reply(found: Option<u32>) -> Reply
    ensures { result ≡ taken_by found }
{
    match found {
        Some(b) => Reply::TakenBatch(b),
        None => Reply::NothingSealed,
    }
}

// A copy of the tasks of the batch.
fn parcel_at(
    alloc: Global,
    jobs: &[Job],
    batches: &[Batch],
    found: Option<u32>,
) -> Result<Option<Parcel>, AllocError>
    requires there { IfSome found (λ b. b < length batches.now) }
    requires fits { (b : ℕ) (x : BatchRecord) → slice_get batches.now b ≡ Some x → CanGoOut jobs.now x }
    ensures { IfOk result (λ p. p ≡ parcel_of jobs.now batches.now found) }
{
    let Some(b) = found else {
        return Ok(None);
    };
    let tasks = copies(alloc, jobs, &batches[b as usize])?;
    Ok(Some(Parcel { batch: b, tasks }))
}

fn copies(alloc: Global, jobs: &[Job], batch: &Batch) -> Result<Vec<Checked>, AllocError>
    requires { CanGoOut jobs.now batch.now }
    ensures tasks { IfOk result (λ v. v.items ≡ tasks_in jobs.now batch.now) }
    ensures fit { IfOk result (λ v. WithinBatch v.items) }
{
    let (_, rest) = jobs.split_at(batch.first as usize);
    let (part, _) = rest.split_at(batch.count as usize);
    let mut tasks = Vec::new(alloc);
    for job in part {
        tasks.push(job.checked.try_copy(alloc)?)?;
    }
    Ok(tasks)
}

pub(crate) fn move_batch(batches: &mut Vec<Batch>, found: Option<u32>, phase: Phase)
    requires { IfSome found (λ b. b < length batches.old.items) }
    ensures { batches.new.items ≡ batches_moved batches.old.items found phase }
{
    if let Some(b) = found {
        let batch = &mut batches[b as usize];
        batch.phase = phase;
    }
}

// How many batches stand before the first sealed one, where the first so many aren't sealed.
fn sealed_from(next: u32, batches: &[Batch]) -> u32
    requires few { length batches.now ≤ most_jobs }
    requires so_far { next ≤ before_sealed batches.now }
    ensures { result ≡ before_sealed batches.now }
{
    let mut n = next;
    while (n as usize) < batches.len() {
        if is_sealed(&batches[n as usize].phase) {
            return n;
        }
        n += 1;
    }
    n
}
