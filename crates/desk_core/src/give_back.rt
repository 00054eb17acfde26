ghost use Rattle.std.specs.Prelude.{◌≡◌, ◌<◌, length, IfOk, IfSome, OnErr};
ghost use Rattle.desk_core.specs.GoodDesks.{IsGoodDesk};
ghost use Rattle.desk_core.specs.Journals.{no_pie};
ghost use Rattle.desk_core.specs.Turns.{IsTurn, turned};
ghost use Rattle.desk_core.specs.Working.Steps.{earlier, given_back, held_number, phase_of_batch};
ghost use Rattle.desk_core.specs.declared.event.Event.TheVariants.{GiveBack};

use crate::batch::Batch;
use crate::desk::Desk;
use crate::entry::ENTRY_AND_CLOSE;
use crate::event::Event;
use crate::phase::Phase;
use crate::reply::Reply;
use crate::submit::write;
use crate::take::move_batch;
use std::alloc::AllocError;

impl Desk {
    /// Gives a batch back that this pass has taken, so that it is sealed again. After want of memory only the count of turns differs.
    pub fn give_back(&mut self, pass: u32, batch: u32) -> Result<Reply, AllocError>
        ensures ok { IfOk result (IsTurn self.old self.new pass (GiveBack batch) no_pie) }
        ensures err { OnErr result (self.new ≡ turned self.old) }
        ensures good { IsGoodDesk self.old × IsGoodDesk self.new }
    {
        self.turns = self.turns.wrapping_add(1);
        self.entries.reserve(ENTRY_AND_CLOSE)?;
        let phase = phase_at(self.batches.as_slice(), batch);
        let held = held_by(self.batches.as_slice(), pass, batch);
        let reply = returned_reply(held, phase);
        move_batch(&mut self.batches, held, Phase::Sealed);
        self.next = sealed_again(self.next, held);
        write(&mut self.entries, pass, Event::GiveBack(batch), &reply);
        Ok(reply)
    }
}

// The phase of the batch of this number.
pub(crate) fn phase_at(batches: &[Batch], batch: u32) -> Phase
    ensures { result ≡ phase_of_batch batches.now batch }
{
    match batches.get(batch as usize) {
        Some(found) => found.phase,
        None => Phase::NoBatch,
    }
}

// The batch's number, where it is taken by the pass.
pub(crate) fn held_by(batches: &[Batch], pass: u32, batch: u32) -> Option<u32>
    ensures held { result ≡ held_number pass batch (phase_of_batch batches.now batch) }
    ensures there { IfSome result (λ b. b < length batches.now) }
{
    match batches.get(batch as usize) {
        Some(found) => held_in(&found.phase, pass, batch),
        None => None,
    }
}

fn held_in(phase: &Phase, pass: u32, batch: u32) -> Option<u32>
    ensures { result ≡ held_number pass batch phase.now }
{
    match phase {
        Phase::Taken(by) if *by == pass => Some(batch),
        Phase::Taken(_) => None,
        Phase::Sealed => None,
        Phase::Registered => None,
        Phase::NoBatch => None,
    }
}

fn returned_reply(held: Option<u32>, phase: Phase) -> Reply
    ensures { result ≡ given_back held phase }
{
    match held {
        Some(_) => Reply::Returned,
        None => Reply::NotTaken(phase),
    }
}

// How many batches stand before the first sealed one, where this one is sealed again.
fn sealed_again(next: u32, held: Option<u32>) -> u32
    ensures { result ≡ earlier next held }
{
    match held {
        Some(b) if b < next => b,
        _ => next,
    }
}
