ghost use Rattle.std.specs.Prelude.{◌≡◌, ◌∷◌, ◌++◌, [], OnOk, codes};
ghost use Rattle.cairo_model.specs.Texts.Facts.{fact_text};
ghost use Rattle.cairo_model.specs.Texts.Numbers.{numbers_text};
ghost use Rattle.desk_script.specs.Transcripts.{entry_text, event_text, note_words, phase_words, quota_number as number_of_kind, reply_words, shown_words};

use cairo_model::{Fact, put_fact, put_number, put_pair, put_refusal};
use desk_core::{Entry, Event, JobPhase, OfferNote, QuotaKind, Reply};
use std::alloc::{AllocError, Global};

/// Appends the line of an entry, if it has one.
pub(crate) fn put_entry(alloc: Global, text: &mut Vec<u8>, entry: &Entry) -> Result<(), AllocError>
    ensures { OnOk result (text.new.items ≡ text.old.items ++ entry_text entry.now) }
{
    put_event(alloc, text, &entry.event, entry.reply)
}

// Appends the line of an event with this reply, if it has one.
fn put_event(
    alloc: Global,
    text: &mut Vec<u8>,
    event: &Event,
    reply: Reply,
) -> Result<(), AllocError>
    ensures { OnOk result (text.new.items ≡ text.old.items ++ event_text event.now reply) }
{
    match event {
        Event::Submit(client, note) => {
            put_client(alloc, text, *client)?;
            text.extend_from_slice(b" submit")?;
            put_reply(alloc, text, reply)?;
            put_shown(alloc, text, note, reply)?;
            text.extend_from_slice(b"\n")
        }
        Event::Ask(client, _) => {
            put_client(alloc, text, *client)?;
            text.extend_from_slice(b" ask")?;
            put_reply(alloc, text, reply)?;
            text.extend_from_slice(b"\n")
        }
        Event::Status(client, number) => {
            put_client(alloc, text, *client)?;
            text.extend_from_slice(b" status")?;
            put_number(alloc, text, u64::from(*number))?;
            put_reply(alloc, text, reply)?;
            text.extend_from_slice(b"\n")
        }
        Event::Seal => Ok(()),
        Event::Take => Ok(()),
        Event::Register(_, _) => Ok(()),
        Event::GiveBack(_) => Ok(()),
        Event::Close => Ok(()),
    }
}

// Appends the client that a line is about.
fn put_client(alloc: Global, text: &mut Vec<u8>, client: u32) -> Result<(), AllocError>
    ensures { OnOk result (text.new.items ≡ text.old.items ++ (codes "client" ++ numbers_text (client ∷ []))) }
{
    text.extend_from_slice(b"client")?;
    put_number(alloc, text, u64::from(client))
}

// Appends the words for a reply to a client.
fn put_reply(alloc: Global, text: &mut Vec<u8>, reply: Reply) -> Result<(), AllocError>
    ensures { OnOk result (text.new.items ≡ text.old.items ++ reply_words reply) }
{
    match reply {
        Reply::Admitted(number) => {
            text.extend_from_slice(b" admitted")?;
            put_number(alloc, text, u64::from(number))
        }
        Reply::Refused(refusal) => {
            text.extend_from_slice(b" refused")?;
            put_refusal(alloc, text, refusal)
        }
        Reply::Closed => text.extend_from_slice(b" closed"),
        Reply::Quota(kind, count, limit) => {
            text.extend_from_slice(b" quota")?;
            put_number(alloc, text, quota_number(kind))?;
            put_pair(alloc, text, count, limit)
        }
        Reply::Yes => text.extend_from_slice(b" yes"),
        Reply::No => text.extend_from_slice(b" no"),
        Reply::IsAt(phase) => put_phase(text, phase),
        Reply::SealedBatch(_) => Ok(()),
        Reply::NothingWaiting(_) => Ok(()),
        Reply::TakenBatch(_) => Ok(()),
        Reply::NothingSealed => Ok(()),
        Reply::Registered => Ok(()),
        Reply::NotTaken(_) => Ok(()),
        Reply::Stranger(_) => Ok(()),
        Reply::Returned => Ok(()),
    }
}

// Appends what an offer shows, where it was admitted.
fn put_shown(
    alloc: Global,
    text: &mut Vec<u8>,
    note: &OfferNote,
    reply: Reply,
) -> Result<(), AllocError>
    ensures { OnOk result (text.new.items ≡ text.old.items ++ shown_words note.now reply) }
{
    match reply {
        Reply::Admitted(_) => put_note(alloc, text, note),
        _ => Ok(()),
    }
}

// Appends what an accepted offer shows.
fn put_note(alloc: Global, text: &mut Vec<u8>, note: &OfferNote) -> Result<(), AllocError>
    ensures { OnOk result (text.new.items ≡ text.old.items ++ note_words note.now) }
{
    match note {
        OfferNote::Accepted(_, fact) => put_program(alloc, text, fact),
        OfferNote::Refused(_) => Ok(()),
    }
}

// Appends a program and its outputs.
fn put_program(alloc: Global, text: &mut Vec<u8>, fact: &Fact) -> Result<(), AllocError>
    ensures { OnOk result (text.new.items ≡ text.old.items ++ (codes " program " ++ fact_text fact.now)) }
{
    text.extend_from_slice(b" program ")?;
    put_fact(alloc, text, fact)
}

// Appends where a job stands.
fn put_phase(text: &mut Vec<u8>, phase: JobPhase) -> Result<(), AllocError>
    ensures { OnOk result (text.new.items ≡ text.old.items ++ phase_words phase) }
{
    match phase {
        JobPhase::Waiting => text.extend_from_slice(b" waiting"),
        JobPhase::Sealed => text.extend_from_slice(b" sealed"),
        JobPhase::Taken => text.extend_from_slice(b" taken"),
        JobPhase::Registered => text.extend_from_slice(b" registered"),
        JobPhase::Unknown => text.extend_from_slice(b" unknown"),
    }
}

// The number by which a limit is named.
fn quota_number(kind: QuotaKind) -> u64
    ensures { result ≡ number_of_kind kind }
{
    match kind {
        QuotaKind::Pies => 1,
        QuotaKind::Steps => 2,
        QuotaKind::Sizes => 3,
    }
}
