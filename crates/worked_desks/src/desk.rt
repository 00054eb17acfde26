//! Each helper borrows the desk and gives back replies and numbers, so that a test holds no desk where it may end early.

use batch_runner::{BootMaker, Maker};
use boot_program::{Certified, Parcel};
use cairo_model::{Checked, Outputs, ReadRefusal, Refusal, felt_of};
use desk_core::{Desk, Event, JobPhase, Offer, OfferNote, Phase, RegisterEnd, Reply};
use hex::decode;
use pie_replay::admit;
use row_checker::certify;
use std::alloc::{AllocError, Global};
use std::test::Fail;
use std::thread::Threads;
use worked_vectors::files::{EMPTY, FIVE};

// The replies to a seal by pass 3 and to a take by pass 4, and whether a parcel was handed out.
fn sealed_and_taken(alloc: Global, desk: &mut Desk) -> Result<(Reply, Reply, bool), Fail> {
    let sealed = desk.seal(alloc, 3)?;
    let (taken, parcel) = desk.take(alloc, 4)?;
    Ok((sealed, taken, parcel.is_some()))
}

// The pass of the entry at this index.
fn pass_at(desk: &Desk, index: usize) -> Option<u32> {
    match desk.entries().get(index) {
        Some(entry) => Some(entry.pass),
        None => None,
    }
}

#[test]
fn a_new_desk_has_nothing_to_seal_or_to_take(rt: HostRuntime) -> Result<(), Fail> {
    let (replies, turns, passes) = {
        let mut desk = Desk::new(rt.alloc(), 2)?;
        let replies = sealed_and_taken(rt.alloc(), &mut desk);
        (
            replies,
            desk.turns(),
            (pass_at(&desk, 0), pass_at(&desk, 1)),
        )
    };
    let wanted = (Reply::NothingWaiting(false), Reply::NothingSealed, false);
    assert_eq!(rt; replies?, wanted);
    assert_eq!(rt; turns, 2);
    assert_eq!(rt; passes, (Some(3), Some(4)));
    Ok(())
}

// How many clients, entries, jobs and batches there are.
fn counts(desk: &Desk) -> (u32, usize, usize, usize) {
    (
        desk.clients(),
        desk.entries().len(),
        desk.jobs().len(),
        desk.batches().len(),
    )
}

// Whether the first entry is of a refused offer by client 1.
fn begins_with_refused_offer(desk: &Desk) -> bool {
    match desk.entries().first() {
        Some(entry) => matches!(&entry.event, Event::Submit(1, OfferNote::Refused(_))),
        None => false,
    }
}

#[test]
fn a_refused_offer_leaves_an_entry_and_no_job(rt: HostRuntime) -> Result<(), Fail> {
    let refusal = Refusal::Read(ReadRefusal::BadMagic);
    let (reply, left, is_noted, is_closed) = {
        let mut desk = Desk::new(rt.alloc(), 2)?;
        let reply = desk.submit(rt.alloc(), 0, 1, Offer::Refused(refusal));
        (
            reply,
            counts(&desk),
            begins_with_refused_offer(&desk),
            desk.is_closed(),
        )
    };
    assert_eq!(rt; reply?, Reply::Refused(refusal));
    assert_eq!(rt; left, (2, 1, 0, 0));
    assert!(rt; is_noted);
    assert!(rt; !is_closed);
    Ok(())
}

fn task(alloc: Global, file: &str) -> Result<Checked, Fail> {
    Ok(admit(alloc, decode(alloc, file)?.as_slice())?)
}

// The certificate of the bootloader's run over the parcel, with it.
fn certified(rt: &(impl Threads + Sync), alloc: Global, parcel: Parcel) -> Result<Certified, Fail> {
    let cert = BootMaker.make(alloc, &parcel)?;
    match certify(rt, alloc, cert, parcel, 2) {
        Ok(certified) => Ok(certified),
        Err(_) => Err(Fail::from(AllocError)),
    }
}

// The reply to client 0, which hands in the program that writes 5.
fn five_offered(alloc: Global, desk: &mut Desk) -> Result<Reply, Fail> {
    if desk.clients() == 0 {
        return Err(Fail::from(AllocError));
    }
    let five = task(alloc, FIVE)?;
    Ok(desk.submit(alloc, 0, 0, Offer::Accepted(five))?)
}

// The batch 0 of the program that writes 5, which pass 1 takes.
fn five_taken(alloc: Global, desk: &mut Desk) -> Result<Parcel, Fail> {
    let _ = five_offered(alloc, desk)?;
    let _ = desk.seal(alloc, 1)?;
    match desk.take(alloc, 1)? {
        (_, Some(parcel)) => Ok(parcel),
        (_, None) => Err(Fail::from(AllocError)),
    }
}

// The replies to a close, and to a seal and an offer after it.
fn closed_first(alloc: Global, desk: &mut Desk) -> Result<(Reply, Reply, Reply), Fail> {
    let closed = desk.close(0)?;
    let sealed = desk.seal(alloc, 0)?;
    Ok((closed, sealed, five_offered(alloc, desk)?))
}

#[test]
fn a_closed_desk_admits_nothing(rt: HostRuntime) -> Result<(), Fail> {
    let replies = {
        let mut desk = Desk::new(rt.alloc(), 1)?;
        closed_first(rt.alloc(), &mut desk)
    };
    let wanted = (Reply::Closed, Reply::NothingWaiting(true), Reply::Closed);
    assert_eq!(rt; replies?, wanted);
    Ok(())
}

// The replies where pass 2 gives batch 0 back, and pass 1 batch 1 and batch 0, which pass 3 takes then.
fn given_back(alloc: Global, desk: &mut Desk) -> Result<[Reply; 4], Fail> {
    let _ = five_taken(alloc, desk)?;
    let by_other = desk.give_back(2, 0)?;
    let of_other = desk.give_back(1, 1)?;
    let own = desk.give_back(1, 0)?;
    let (taken, _) = desk.take(alloc, 3)?;
    Ok([by_other, of_other, own, taken])
}

#[test]
fn a_batch_is_given_back_by_the_pass_that_took_it(rt: HostRuntime) -> Result<(), Fail> {
    let replies = {
        let mut desk = Desk::new(rt.alloc(), 1)?;
        given_back(rt.alloc(), &mut desk)
    };
    let wanted = [
        Reply::NotTaken(Phase::Taken(1)),
        Reply::NotTaken(Phase::NoBatch),
        Reply::Returned,
        Reply::TakenBatch(0),
    ];
    assert_eq!(rt; replies?, wanted);
    Ok(())
}

// The reply to client 0, which asks for the fact of the program that writes 5.
fn five_asked(alloc: Global, desk: &mut Desk) -> Result<Reply, Fail> {
    if desk.clients() == 0 {
        return Err(Fail::from(AllocError));
    }
    let five = task(alloc, FIVE)?;
    Ok(desk.ask(alloc, 0, 0, five.fact())?)
}

// How pass 1 registers batch 0 with this parcel: whether it is done, and how many tasks come back as a stranger's.
fn registered(
    rt: &(impl Threads + Sync),
    alloc: Global,
    desk: &mut Desk,
    parcel: Parcel,
) -> Result<(bool, Option<usize>), Fail> {
    let certified = certified(rt, alloc, parcel)?;
    Ok(match desk.register(alloc, 1, 0, certified) {
        RegisterEnd::Done => (true, None),
        RegisterEnd::Stranger(0, back) => (false, Some(back.parcel().tasks.len())),
        _ => (false, None),
    })
}

// What client 0 is told of the fact before and after the batch is registered, and whether it is.
fn asked_twice(
    rt: &(impl Threads + Sync),
    alloc: Global,
    desk: &mut Desk,
) -> Result<(Reply, bool, Reply), Fail> {
    let parcel = five_taken(alloc, desk)?;
    let before = five_asked(alloc, desk)?;
    let (done, _) = registered(rt, alloc, desk, parcel)?;
    Ok((before, done, five_asked(alloc, desk)?))
}

#[test]
fn the_facts_of_a_registered_batch_stand(rt: HostRuntime) -> Result<(), Fail> {
    let replies = {
        let mut desk = Desk::new(rt.alloc(), 1)?;
        asked_twice(&rt, rt.alloc(), &mut desk)
    };
    assert_eq!(rt; replies?, (Reply::No, true, Reply::Yes));
    Ok(())
}

// The reply to client 0, which asks where its job of this number stands.
fn told(desk: &mut Desk, number: u32) -> Result<Reply, Fail> {
    if desk.clients() == 0 {
        return Err(Fail::from(AllocError));
    }
    Ok(desk.status(0, 0, number)?)
}

// What client 0 is told of its jobs 0 and 1 while pass 1 has the batch, and the reply to that pass, which gives it back.
fn told_while_taken(alloc: Global, desk: &mut Desk) -> Result<(Reply, Reply, Reply), Fail> {
    let _ = five_taken(alloc, desk)?;
    let first = told(desk, 0)?;
    let second = told(desk, 1)?;
    Ok((first, second, desk.give_back(1, 0)?))
}

#[test]
fn it_is_told_where_a_job_stands(rt: HostRuntime) -> Result<(), Fail> {
    let (replies, phases) = {
        let mut desk = Desk::new(rt.alloc(), 1)?;
        let replies = told_while_taken(rt.alloc(), &mut desk);
        (
            replies,
            [
                desk.phase_of(0, 0),
                desk.phase_of(0, 64),
                desk.phase_of(1, 0),
            ],
        )
    };
    let wanted = (
        Reply::IsAt(JobPhase::Taken),
        Reply::IsAt(JobPhase::Unknown),
        Reply::Returned,
    );
    assert_eq!(rt; replies?, wanted);
    let wanted = [JobPhase::Sealed, JobPhase::Unknown, JobPhase::Unknown];
    assert_eq!(rt; phases, wanted);
    Ok(())
}

// A parcel of the program that does nothing.
fn empty_parcel(alloc: Global) -> Result<Parcel, Fail> {
    let empty = task(alloc, EMPTY)?;
    let _empty = empty.states();
    let mut tasks = Vec::new(alloc);
    tasks.push(empty)?;
    Ok(Parcel { batch: 0, tasks })
}

// How it is registered in place of the program that writes 5, and whether its fact stands then.
fn stranger_registered(
    rt: &(impl Threads + Sync),
    alloc: Global,
    desk: &mut Desk,
) -> Result<(bool, Option<usize>, bool), Fail> {
    let _ = five_taken(alloc, desk)?;
    let (done, back) = registered(rt, alloc, desk, empty_parcel(alloc)?)?;
    let empty = task(alloc, EMPTY)?;
    Ok((done, back, desk.registry().holds(empty.fact())))
}

#[test]
fn a_parcel_of_other_tasks_comes_back(rt: HostRuntime) -> Result<(), Fail> {
    let found = {
        let mut desk = Desk::new(rt.alloc(), 1)?;
        stranger_registered(&rt, rt.alloc(), &mut desk)
    };
    assert_eq!(rt; found?, (false, Some(1), false));
    Ok(())
}

// The outputs that stand for the program that writes 5, after a batch of two of its runs.
fn outputs_told(
    rt: &(impl Threads + Sync),
    alloc: Global,
    desk: &mut Desk,
) -> Result<Vec<Outputs>, Fail> {
    let _ = five_offered(alloc, desk)?;
    let parcel = five_taken(alloc, desk)?;
    let _ = registered(rt, alloc, desk, parcel)?;
    let five = task(alloc, FIVE)?;
    Ok(desk.registry().outputs_of(alloc, &five.fact().program)?)
}

#[test]
fn a_fact_of_two_jobs_is_told_once(rt: HostRuntime) -> Result<(), Fail> {
    let found = {
        let mut desk = Desk::new(rt.alloc(), 1)?;
        outputs_told(&rt, rt.alloc(), &mut desk)
    };
    let outputs = found?;
    assert_eq!(rt; outputs.len(), 1);
    for numbers in outputs.as_slice() {
        assert_eq!(rt; numbers.as_slice(), [felt_of(5)].as_slice());
    }
    Ok(())
}
