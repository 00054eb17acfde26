ghost use Rattle.std.specs.Prelude.{◌≡◌, ◌<◌, ◌++◌, [], ◌∷◌, ◌≤◌, length, vec_len, vec_capacity, IfOk, OnErr};
ghost use Rattle.desk_core.specs.GoodDesks.{IsGoodDesk};
ghost use Rattle.desk_core.specs.Turns.{IsTurn, JournalIsIsolated, offer_note, pie_of, turned};
ghost use Rattle.desk_core.specs.Working.Steps.{AcceptedOffer, admitted_jobs, most_jobs};
ghost use Rattle.desk_core.specs.Working.Telling.{HasPlace, places_after};
ghost use Rattle.desk_core.specs.declared.event.Event.TheVariants.{Submit};

use crate::desk::Desk;
use crate::entry::{ENTRY_AND_CLOSE, Entry};
use crate::event::{Event, OfferNote};
use crate::job::Job;
use crate::offer::Offer;
use crate::quota::{offered_reply, set_usage, usage_at, used};
use crate::reply::Reply;
use crate::status::place;
use std::alloc::{AllocError, Global};

impl Desk {
    /// Hands an offer of a client in. A PIE that isn't admitted is dropped. After want of memory only the count of turns differs.
    pub fn submit(
        &mut self,
        alloc: Global,
        pass: u32,
        client: u32,
        offer: Offer,
    ) -> Result<Reply, AllocError>
        requires { client < self.old.clients }
        ensures ok { IfOk result (IsTurn self.old self.new pass (Submit client (offer_note offer)) (pie_of offer)) }
        ensures err { OnErr result (self.new ≡ turned self.old) }
        ensures good { IsGoodDesk self.old × IsGoodDesk self.new }
        ensures isolated { JournalIsIsolated self.new }
    {
        self.turns = self.turns.wrapping_add(1);
        let note = noted(alloc, &offer)?;
        self.jobs.reserve(1)?;
        self.entries.reserve(ENTRY_AND_CLOSE)?;
        let usage = usage_at(self.usages.as_slice(), client);
        let count = count_of(self.jobs.as_slice());
        let reply = offered_reply(&usage, self.closed, &note);
        set_usage(&mut self.usages, client, used(&usage, &note, &reply));
        set_place(&mut self.places, client, &note, &reply, count);
        admit(&mut self.jobs, client, offer, &reply);
        write(&mut self.entries, pass, Event::Submit(client, note), &reply);
        Ok(reply)
    }
}

// What the journal keeps of an offer.
fn noted(alloc: Global, offer: &Offer) -> Result<OfferNote, AllocError>
    ensures note { IfOk result (λ n. n ≡ offer_note offer.now) }
    ensures accepted { AcceptedOffer offer.now }
{
    match offer {
        Offer::Accepted(checked) => {
            // The states tell that the PIE is accepted.
            let _ = checked.states();
            let fact = checked.fact().try_copy(alloc)?;
            Ok(OfferNote::Accepted(checked.shape(), fact))
        }
        Offer::Refused(refusal) => Ok(OfferNote::Refused(*refusal)),
    }
}

fn count_of(jobs: &[Job]) -> u32
    requires { length jobs.now ≤ most_jobs }
    ensures { result ≡ length jobs.now }
{
    jobs.len() as u32
}

// Puts the job's index into the table where the reply admits it, so many jobs being there before.
fn set_place(
    places: &mut Vec<Option<u32>>,
    client: u32,
    note: &OfferNote,
    reply: &Reply,
    count: u32,
)
    requires { HasPlace places.old.items client note.now reply.now }
    ensures { places.new.items ≡ places_after places.old.items client note.now reply.now count }
{
    if let (OfferNote::Accepted(_, _), Reply::Admitted(number)) = (note, *reply) {
        places[place(client, number)] = Some(count);
    }
}

// Adds the job where the reply admits it.
fn admit(jobs: &mut Vec<Job>, client: u32, offer: Offer, reply: &Reply)
    requires room { vec_len jobs.old < vec_capacity jobs.old }
    ensures { jobs.new.items ≡ admitted_jobs jobs.old.items client offer reply.now }
{
    if let (Offer::Accepted(checked), Reply::Admitted(number)) = (offer, *reply) {
        let job = Job {
            client,
            number,
            checked,
        };
        let Ok(()) = jobs.push(job) else {
            unreachable!()
        };
    }
}

// Writes an entry, for which there is room.
pub(crate) fn write(entries: &mut Vec<Entry>, pass: u32, event: Event, reply: &Reply)
    requires room { vec_len entries.old < vec_capacity entries.old }
    ensures { entries.new.items ≡ entries.old.items ++ record { pass = pass; event = event; reply = reply.now } ∷ [] }
{
    let entry = Entry {
        pass,
        event,
        reply: *reply,
    };
    let Ok(()) = entries.push(entry) else {
        unreachable!()
    };
}
