ghost use Rattle.std.specs.Prelude.{◌≡◌, ◌<◌, ◌≤◌, All, map, drop, length, vec_len, vec_capacity, IfOk, OnErr};
ghost use Rattle.cairo_model.specs.Pie.Shapes.{shape_of};
ghost use Rattle.batch_plan.specs.Cuts.{IsPieShape};
ghost use Rattle.desk_core.specs.GoodDesks.{IsGoodDesk};
ghost use Rattle.desk_core.specs.Journals.{no_pie};
ghost use Rattle.desk_core.specs.NextBatch.{longest_cut};
ghost use Rattle.desk_core.specs.Turns.{IsTurn, turned};
ghost use Rattle.desk_core.specs.Working.Steps.{most_jobs, sealed_batches, sealed_with};
ghost use Rattle.desk_core.specs.declared.event.Event.TheVariants.{Seal};

use crate::batch::Batch;
use crate::desk::Desk;
use crate::entry::ENTRY_AND_CLOSE;
use crate::event::Event;
use crate::job::Job;
use crate::phase::Phase;
use crate::reply::Reply;
use crate::submit::write;
use batch_plan::cut;
use cairo_model::Shape;
use std::alloc::{AllocError, Global};

impl Desk {
    /// Puts as many of the waiting jobs, from the first on, as the limits of a batch allow into a new batch. After want of memory
    /// only the count of turns differs.
    pub fn seal(&mut self, alloc: Global, pass: u32) -> Result<Reply, AllocError>
        ensures ok { IfOk result (IsTurn self.old self.new pass Seal no_pie) }
        ensures err { OnErr result (self.new ≡ turned self.old) }
        ensures good { IsGoodDesk self.old × IsGoodDesk self.new }
    {
        self.turns = self.turns.wrapping_add(1);
        let first = self.batched;
        let waiting = shapes(alloc, self.jobs.as_slice(), first as usize)?;
        self.batches.reserve(1)?;
        self.entries.reserve(ENTRY_AND_CLOSE)?;
        let count = cut_number(waiting.as_slice());
        let number = number_of(self.batches.as_slice());
        let reply = sealed_reply(count, self.closed, number);
        add_batch(&mut self.batches, first, count);
        self.batched = first + count;
        write(&mut self.entries, pass, Event::Seal, &reply);
        Ok(reply)
    }
}

// The shapes of the jobs from an index on.
fn shapes(alloc: Global, jobs: &[Job], first: usize) -> Result<Vec<Shape>, AllocError>
    requires { first ≤ length jobs.now }
    ensures { IfOk result (λ v. v.items ≡ map (λ j. shape_of j.checked.pie) (drop first jobs.now)) }
{
    let (_, rest) = jobs.split_at(first);
    rest.iter().map(|j| j.checked.shape()).collect(alloc)
}

// The number of the next batch.
fn number_of(batches: &[Batch]) -> u32
    requires { length batches.now ≤ most_jobs }
    ensures { result ≡ length batches.now }
{
    batches.len() as u32
}

fn cut_number(waiting: &[Shape]) -> u32
    requires { All IsPieShape waiting.now }
    ensures value { result ≡ longest_cut waiting.now }
    ensures few { result ≤ length waiting.now }
{
    cut(waiting) as u32
}

fn sealed_reply(count: u32, closed: bool, number: u32) -> Reply
    ensures { result ≡ sealed_with count closed number }
{
    if count == 0 {
        Reply::NothingWaiting(closed)
    } else {
        Reply::SealedBatch(number)
    }
}

fn add_batch(batches: &mut Vec<Batch>, first: u32, count: u32)
    requires room { vec_len batches.old < vec_capacity batches.old }
    ensures { batches.new.items ≡ sealed_batches batches.old.items first count }
{
    if count == 0 {
        return;
    }
    let batch = Batch {
        first,
        count,
        phase: Phase::Sealed,
        cert: None,
    };
    let Ok(()) = batches.push(batch) else {
        unreachable!()
    };
}
