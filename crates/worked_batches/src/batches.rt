//! The steps and outputs of the batches were told by an independent program. Each certificate is checked row by row.

ghost use Rattle.std.specs.Prelude.{◌≤◌};

use batch_runner::{BootMaker, Maker};
use boot_program::Parcel;
use cairo_model::{Cert, Checked};
use desk_core::{Desk, Offer, Reply};
use goldi_field::Felt;
use hex::decode;
use pie_replay::admit;
use row_checker::certify;
use std::alloc::{AllocError, Global};
use std::process::Abort;
use std::test::Fail;
use std::thread::Threads;
use worked_vectors::files::{
    EMPTY, EMPTY_OF_5, EMPTY_OF_6, EMPTY_OF_7, EMPTY_OF_8, FIVE, HASH0, RANGE_7, TALL,
};

fn task(alloc: Global, file: &str) -> Result<Checked, Fail> {
    Ok(admit(alloc, decode(alloc, file)?.as_slice())?)
}

// Three tasks are within the limits of a batch, whatever they are.
fn of_three(
    alloc: Global,
    first: Checked,
    second: Checked,
    third: Checked,
) -> Result<Parcel, AllocError> {
    let _first = first.states();
    let _second = second.states();
    let _third = third.states();
    let mut tasks = Vec::new(alloc);
    tasks.push(first)?;
    tasks.push(second)?;
    tasks.push(third)?;
    Ok(Parcel { batch: 0, tasks })
}

fn of_two(alloc: Global, first: Checked, second: Checked) -> Result<Parcel, AllocError> {
    let _first = first.states();
    let _second = second.states();
    let mut tasks = Vec::new(alloc);
    tasks.push(first)?;
    tasks.push(second)?;
    Ok(Parcel { batch: 0, tasks })
}

// The files of the parcel are in hexadecimal.
fn parcel_of_three(alloc: Global, files: [&str; 3]) -> Result<Parcel, Fail> {
    let [first, second, third] = files;
    let first = task(alloc, first)?;
    let second = task(alloc, second)?;
    Ok(of_three(alloc, first, second, task(alloc, third)?)?)
}

fn parcel_of_two(alloc: Global, first: &str, second: &str) -> Result<Parcel, Fail> {
    let first = task(alloc, first)?;
    Ok(of_two(alloc, first, task(alloc, second)?)?)
}

// The certificate has these outputs, and one state more than steps.
fn expect_batch(rt: &impl Abort, cert: &Cert, steps: usize, outputs: &[u64]) {
    assert_eq!(rt; cert.states.len().checked_sub(1), Some(steps));
    assert_eq!(rt;
        cert.output.start.value().checked_add(outputs.len() as u64),
        Some(cert.output.stop.value())
    );
    for (index, number) in outputs.iter().enumerate() {
        match cert
            .output
            .start
            .value()
            .checked_add(index as u64)
            .and_then(Felt::new)
        {
            Some(address) => match cert.cells.get(address) {
                Some(value) => assert_eq!(rt; value.value(), *number),
                None => assert!(rt; false, "no cell"),
            },
            None => assert!(rt; false, "no address"),
        }
    }
}

// Whether what is made of the parcel is certified for it in so many chunks.
fn is_certified(
    rt: &(impl Threads + Sync),
    alloc: Global,
    parcel: Parcel,
    chunks: usize,
) -> Result<bool, AllocError>
    requires { 1 ≤ chunks }
{
    let cert = BootMaker.make(alloc, &parcel)?;
    Ok(certify(rt, alloc, cert, parcel, chunks).is_ok())
}

// The same, and what is made has these outputs, and one state more than steps.
fn is_certified_with(
    rt: &(impl Threads + Sync + Abort),
    alloc: Global,
    parcel: Parcel,
    chunks: usize,
    steps: usize,
    outputs: &[u64],
) -> Result<bool, AllocError>
    requires { 1 ≤ chunks }
{
    let cert = BootMaker.make(alloc, &parcel)?;
    expect_batch(rt, &cert, steps, outputs);
    Ok(certify(rt, alloc, cert, parcel, chunks).is_ok())
}

#[test]
fn a_batch_of_three_prints_what_each_shows(rt: HostRuntime) -> Result<(), Fail> {
    let parcel = parcel_of_three(rt.alloc(), [EMPTY, FIVE, FIVE])?;
    let outputs = [
        3, 9, 1256366875, 4191841772, 2390839014, 1583650134, 223931603, 2708635364, 2656205228,
        3851522439, 10, 1682648198, 4276435530, 3557564911, 2699579982, 885479782, 3474128063,
        3852709440, 3500719293, 5, 10, 1682648198, 4276435530, 3557564911, 2699579982, 885479782,
        3474128063, 3852709440, 3500719293, 5,
    ];
    let certified = is_certified_with(&rt, rt.alloc(), parcel, 2, 364, &outputs)?;
    assert!(rt; certified);
    Ok(())
}

#[test]
fn a_batch_of_two_prints_what_each_shows(rt: HostRuntime) -> Result<(), Fail> {
    let tall: [u64; 20] = [
        2, 9, 1256366875, 4191841772, 2390839014, 1583650134, 223931603, 2708635364, 2656205228,
        3851522439, 10, 1682648198, 4276435530, 3557564911, 2699579982, 885479782, 3474128063,
        3852709440, 3500719293, 5,
    ];
    let hashed: [u64; 19] = [
        2, 9, 3598290292, 3601237068, 3242122266, 1728836272, 462025592, 3486644392, 2997149976,
        2744761494, 9, 4202576910, 1548923269, 3726529407, 2907961815, 1811705705, 375807601,
        2808711554, 1272487886,
    ];
    for (first, second, steps, outputs) in [
        (TALL, FIVE, 234, tall.as_slice()),
        (HASH0, RANGE_7, 263, hashed.as_slice()),
    ] {
        let parcel = parcel_of_two(rt.alloc(), first, second)?;
        let certified = is_certified_with(&rt, rt.alloc(), parcel, 1, steps, outputs)?;
        assert!(rt; certified);
    }
    Ok(())
}

// The hash of a program takes its words by groups of four: four numbers and 5 to 8 words leave each remainder.
#[test]
fn programs_of_each_length_make_a_batch(rt: HostRuntime) -> Result<(), Fail> {
    let one_each = parcel_of_three(rt.alloc(), [EMPTY_OF_5, EMPTY_OF_6, EMPTY_OF_7])?;
    let first = is_certified(&rt, rt.alloc(), one_each, 2)?;
    let whole = parcel_of_two(rt.alloc(), EMPTY_OF_8, EMPTY_OF_7)?;
    let second = is_certified(&rt, rt.alloc(), whole, 1)?;
    assert_eq!(rt; (first, second), (true, true));
    Ok(())
}

// The reply to a client that hands in the program that does nothing.
fn empty_offered(alloc: Global, desk: &mut Desk) -> Result<Reply, Fail> {
    if desk.clients() == 0 {
        return Err(Fail::from(AllocError));
    }
    let empty = task(alloc, EMPTY)?;
    Ok(desk.submit(alloc, 0, 0, Offer::Accepted(empty))?)
}

// The replies to a seal and to a take after seventeen tasks are admitted, with the parcel.
fn taken_of_seventeen(
    rt: &impl Abort,
    alloc: Global,
    desk: &mut Desk,
) -> Result<(Reply, Reply, Parcel), Fail> {
    for number in 0..17u32 {
        let reply = empty_offered(alloc, desk)?;
        assert_eq!(rt; reply, Reply::Admitted(number));
    }
    let sealed = desk.seal(alloc, 0)?;
    match desk.take(alloc, 1)? {
        (taken, Some(parcel)) => Ok((sealed, taken, parcel)),
        (_, None) => Err(Fail::from(AllocError)),
    }
}

#[test]
fn the_desk_hands_out_sixteen_tasks_at_most(rt: HostRuntime) -> Result<(), Fail> {
    let taken = {
        let mut desk = Desk::new(rt.alloc(), 1)?;
        taken_of_seventeen(&rt, rt.alloc(), &mut desk)
    };
    let (sealed, taken, parcel) = taken?;
    let tasks = parcel.tasks.len();
    let certified = is_certified(&rt, rt.alloc(), parcel, 8)?;
    assert_eq!(rt;
        (sealed, taken),
        (Reply::SealedBatch(0), Reply::TakenBatch(0))
    );
    assert_eq!(rt; (tasks, certified), (16, true));
    Ok(())
}
