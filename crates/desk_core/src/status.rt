ghost use Rattle.std.specs.Prelude.{◌≡◌, ◌<◌, ◌≤◌, true, false, length, map, IfOk, OnErr};
ghost use Rattle.std.specs.List.Sorted.{IsPartitionPoint};
ghost use Rattle.desk_core.specs.DeskRecords.{plain_batch, plain_of};
ghost use Rattle.desk_core.specs.Desks.{job_phase, told_of};
ghost use Rattle.desk_core.specs.GoodDesks.{IsGoodDesk};
ghost use Rattle.desk_core.specs.Journals.{no_pie};
ghost use Rattle.desk_core.specs.Kept.{table_place};
ghost use Rattle.desk_core.specs.SoundDesks.{AreNeighbours};
ghost use Rattle.desk_core.specs.Turns.{IsTurn, turned};
ghost use Rattle.desk_core.specs.Working.Telling.{begins_by, phase_by, index_in, told_in, told_inside};
ghost use Rattle.desk_core.specs.declared.event.Event.TheVariants.{Status};

use crate::batch::Batch;
use crate::desk::Desk;
use crate::entry::ENTRY_AND_CLOSE;
use crate::event::Event;
use crate::limits::MOST_CLIENT_PIES;
use crate::phase::{JobPhase, Phase};
use crate::reply::Reply;
use crate::submit::write;
use std::alloc::AllocError;

impl Desk {
    /// Tells where the client's job of this number stands. After want of memory only the count of turns differs.
    pub fn status(&mut self, pass: u32, client: u32, number: u32) -> Result<Reply, AllocError>
        requires { client < self.old.clients }
        ensures ok { IfOk result (IsTurn self.old self.new pass (Status client number) no_pie) }
        ensures err { OnErr result (self.new ≡ turned self.old) }
        ensures good { IsGoodDesk self.old × IsGoodDesk self.new }
    {
        self.turns = self.turns.wrapping_add(1);
        self.entries.reserve(ENTRY_AND_CLOSE)?;
        let found = index_at(self.places.as_slice(), client, number);
        let phase = phase_found(self.batches.as_slice(), found);
        let reply = Reply::IsAt(phase);
        write(
            &mut self.entries,
            pass,
            Event::Status(client, number),
            &reply,
        );
        Ok(reply)
    }

    /// Where the client's job of this number stands, and `Unknown` where there is no such client or job. It is no event.
    pub fn phase_of(&self, client: u32, number: u32) -> JobPhase
        ensures { result ≡ job_phase (plain_of self.now) client number }
    {
        phase_found(
            self.batches.as_slice(),
            index_at(self.places.as_slice(), client, number),
        )
    }
}

// Where the table has the place of a client's job of this number.
pub(crate) fn place(client: u32, number: u32) -> usize
    ensures { result ≡ table_place client number }
{
    client as usize * MOST_CLIENT_PIES as usize + number as usize
}

// The index of the client's job of this number, by the table.
fn index_at(places: &[Option<u32>], client: u32, number: u32) -> Option<u32>
    ensures { result ≡ index_in places.now client number }
{
    if MOST_CLIENT_PIES <= u64::from(number) {
        return None;
    }
    match places.get(place(client, number)) {
        Some(found) => *found,
        None => None,
    }
}

// Where the job of this index stands, if one was found.
fn phase_found(batches: &[Batch], found: Option<u32>) -> JobPhase
    requires { AreNeighbours 0 (map plain_batch batches.now) }
    ensures { result ≡ phase_by batches.now found }
{
    match found {
        Some(index) => phase_of_job(batches, index),
        None => JobPhase::Unknown,
    }
}

// Where the job of this index stands: in the last batch that begins at it or before it, or behind that.
fn phase_of_job(batches: &[Batch], index: u32) -> JobPhase
    requires { AreNeighbours 0 (map plain_batch batches.now) }
    ensures { result ≡ told_in batches.now index }
{
    let begun = begun_by(batches, index);
    if begun == 0 {
        return JobPhase::Waiting;
    }
    told_by(&batches[begun - 1], index)
}

// How many batches begin at the index or before it.
fn begun_by(batches: &[Batch], index: u32) -> usize
    requires { AreNeighbours 0 (map plain_batch batches.now) }
    ensures few { result ≤ length batches.now }
    ensures point { IsPartitionPoint (λ b. begins_by index b ≡ true) (λ b. begins_by index b ≡ false) batches.now result }
{
    batches.partition_point(|b| b.first <= index)
}

// Where a job stands that doesn't lie before the batch.
fn told_by(batch: &Batch, index: u32) -> JobPhase
    ensures { result ≡ told_inside batch.now index }
{
    if u64::from(index) < u64::from(batch.first) + u64::from(batch.count) {
        told(&batch.phase)
    } else {
        JobPhase::Waiting
    }
}

fn told(phase: &Phase) -> JobPhase
    ensures { result ≡ told_of phase.now }
{
    match phase {
        Phase::Sealed => JobPhase::Sealed,
        Phase::Taken(_) => JobPhase::Taken,
        Phase::Registered => JobPhase::Registered,
        Phase::NoBatch => JobPhase::Waiting,
    }
}
