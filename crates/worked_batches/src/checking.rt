//! Certificates that an independent program made, and changed ones.

ghost use Rattle.std.specs.Prelude.{◌≤◌};

use batch_runner::{BootMaker, Maker};
use boot_program::{Parcel, RowCause, RunFault};
use cairo_model::{Cert, End, felt_of};
use cert_format::{read_cert, write_cert};
use desk_core::{Desk, Offer};
use hex::decode;
use pie_replay::admit;
use row_checker::{certify, check_run};
use std::alloc::{AllocError, Global};
use std::test::Fail;
use std::thread::Threads;
use worked_vectors::certificates::{EMPTY_BATCH, FIVE_CERTIFICATE};
use worked_vectors::files::{EMPTY, FIVE};

// A certificate with other bytes at these places.
fn changed(alloc: Global, digits: &str, changes: &[(usize, u8)]) -> Result<Cert, Fail> {
    let mut bytes = decode(alloc, digits)?;
    for &(at, byte) in changes {
        if let Some(place) = bytes.get_mut(at) {
            *place = byte;
        }
    }
    Ok(read_cert(alloc, bytes.as_slice())?)
}

// The first fault, in so many chunks.
fn fault_of(
    rt: &(impl Threads + Sync),
    alloc: Global,
    cert: &Cert,
    chunks: usize,
) -> Result<Option<RunFault>, AllocError>
    requires { 1 ≤ chunks }
{
    match check_run(rt, alloc, cert, chunks) {
        Ok(()) => Ok(None),
        Err(End::Refused(fault)) => Ok(Some(fault)),
        Err(End::OutOfMemory) => Err(AllocError),
    }
}

// The first fault in one chunk, in two and in eight.
fn faults_of(
    rt: &(impl Threads + Sync),
    alloc: Global,
    cert: &Cert,
) -> Result<[Option<RunFault>; 3], AllocError> {
    let in_one = fault_of(rt, alloc, cert, 1)?;
    let in_two = fault_of(rt, alloc, cert, 2)?;
    let in_eight = fault_of(rt, alloc, cert, 8)?;
    Ok([in_one, in_two, in_eight])
}

// Those of the certificate of a program that writes 5, with another byte at this place.
fn faults_with(
    rt: &(impl Threads + Sync),
    alloc: Global,
    at: usize,
    byte: u8,
) -> Result<[Option<RunFault>; 3], Fail> {
    let faults = {
        let cert = changed(alloc, FIVE_CERTIFICATE, &[(at, byte)])?;
        faults_of(rt, alloc, &cert)
    };
    Ok(faults?)
}

// The last byte of the frame pointer of state 3 is at 452, those of the first and of the last state at 372 and 508.
#[test]
fn the_first_fault_is_the_same_in_any_number_of_chunks(rt: HostRuntime) -> Result<(), Fail> {
    for (at, byte, fault) in [
        (452, 15, None),
        (452, 16, Some(RunFault::Row(2, RowCause::Next))),
        (372, 16, Some(RunFault::Start(1))),
        (508, 26, Some(RunFault::End(1))),
    ] {
        let faults = faults_with(&rt, rt.alloc(), at, byte)?;
        assert_eq!(rt; faults, [fault, fault, fault]);
    }
    Ok(())
}

// A client hands in the program that writes 5.
fn offer_five(alloc: Global, desk: &mut Desk) -> Result<(), Fail> {
    if desk.clients() == 0 {
        return Err(Fail::from(AllocError));
    }
    let five = admit(alloc, decode(alloc, FIVE)?.as_slice())?;
    let _ = desk.submit(alloc, 0, 0, Offer::Accepted(five))?;
    Ok(())
}

// Sixteen tasks of the desk.
fn sixteen_taken(alloc: Global, desk: &mut Desk) -> Result<Parcel, Fail> {
    for _ in 0..16u32 {
        offer_five(alloc, desk)?;
    }
    let _ = desk.seal(alloc, 0)?;
    match desk.take(alloc, 0)? {
        (_, Some(parcel)) => Ok(parcel),
        (_, None) => Err(Fail::from(AllocError)),
    }
}

fn parcel_of_sixteen(alloc: Global) -> Result<Parcel, Fail> {
    let mut desk = Desk::new(alloc, 1)?;
    sixteen_taken(alloc, &mut desk)
}

fn cert_of_sixteen(alloc: Global) -> Result<Cert, Fail> {
    let made = {
        let parcel = parcel_of_sixteen(alloc)?;
        BootMaker.make(alloc, &parcel)
    };
    Ok(made?)
}

// How many states the certificate of sixteen tasks has, and its bytes. Its run has 2,085 rows, so that it is cut into three
// chunks.
fn sixteen_written(alloc: Global) -> Result<(usize, Vec<u8>), Fail> {
    let (states, bytes) = {
        let made = cert_of_sixteen(alloc)?;
        (made.states.len(), write_cert(alloc, &made))
    };
    Ok((states, bytes?))
}

// The certificate of these bytes, with another frame pointer in the state so many before the end.
fn with_other_state(alloc: Global, bytes: &[u8], from_end: usize) -> Result<Cert, Fail> {
    let mut bytes = bytes.to_vec(alloc)?;
    let last_byte = bytes
        .len()
        .saturating_sub(STATE_BYTES.saturating_mul(from_end))
        .saturating_add(STATE_BYTES - 1);
    if let Some(byte) = bytes.get_mut(last_byte) {
        *byte ^= 1;
    }
    Ok(read_cert(alloc, bytes.as_slice())?)
}

/// A state is three numbers of eight bytes.
const STATE_BYTES: usize = 24;

fn faults_with_other_state(
    rt: &(impl Threads + Sync),
    alloc: Global,
    bytes: &[u8],
    from_end: usize,
) -> Result<[Option<RunFault>; 3], Fail> {
    let faults = {
        let cert = with_other_state(alloc, bytes, from_end)?;
        faults_of(rt, alloc, &cert)
    };
    Ok(faults?)
}

// The chunks end at rows 1,025 and 2,050.
#[test]
fn a_row_is_named_whatever_chunk_it_lies_in(rt: HostRuntime) -> Result<(), Fail> {
    let (states, bytes) = sixteen_written(rt.alloc())?;
    assert_eq!(rt; states, 2_086);
    for row in [0u32, 1_023, 1_024, 1_025, 2_049, 2_050, 2_083] {
        let from_end = 2_085usize.saturating_sub(row as usize);
        let faults = faults_with_other_state(&rt, rt.alloc(), bytes.as_slice(), from_end)?;
        let wanted = Some(RunFault::Row(row, RowCause::Next));
        assert_eq!(rt; faults, [wanted, wanted, wanted]);
    }
    Ok(())
}

// A code word that the hash instances take, raised by one, with the eight words that the instance then gives, where they
// stand and where they are printed.
const OTHER_CODE: [(usize, u8); 65] = [
    (3744, 1),
    (3805, 251),
    (3806, 100),
    (3807, 184),
    (3808, 2),
    (3165, 251),
    (3166, 100),
    (3167, 184),
    (3168, 2),
    (3821, 143),
    (3822, 245),
    (3823, 49),
    (3824, 52),
    (3181, 143),
    (3182, 245),
    (3183, 49),
    (3184, 52),
    (3837, 128),
    (3838, 0),
    (3839, 249),
    (3840, 62),
    (3197, 128),
    (3198, 0),
    (3199, 249),
    (3200, 62),
    (3853, 30),
    (3854, 175),
    (3855, 143),
    (3856, 230),
    (3213, 30),
    (3214, 175),
    (3215, 143),
    (3216, 230),
    (3869, 66),
    (3870, 242),
    (3871, 179),
    (3872, 246),
    (3229, 66),
    (3230, 242),
    (3231, 179),
    (3232, 246),
    (3885, 167),
    (3886, 74),
    (3887, 206),
    (3888, 113),
    (3245, 167),
    (3246, 74),
    (3247, 206),
    (3248, 113),
    (3901, 82),
    (3902, 206),
    (3903, 55),
    (3904, 223),
    (3261, 82),
    (3262, 206),
    (3263, 55),
    (3264, 223),
    (3917, 137),
    (3918, 75),
    (3919, 27),
    (3920, 154),
    (3277, 137),
    (3278, 75),
    (3279, 27),
    (3280, 154),
];

// The first fault of the batch of the program that does nothing, with other bytes at these places, in eight chunks.
fn batch_fault(
    rt: &(impl Threads + Sync),
    alloc: Global,
    changes: &[(usize, u8)],
) -> Result<Option<RunFault>, Fail> {
    let fault = {
        let cert = changed(alloc, EMPTY_BATCH, changes)?;
        fault_of(rt, alloc, &cert, 8)
    };
    Ok(fault?)
}

// The bootloader's first word ends at 144, and the first word of the printed hash, which is 27 modulo 256, at 3168.
#[test]
fn a_batch_is_of_the_bootloader(rt: HostRuntime) -> Result<(), Fail> {
    let good = batch_fault(&rt, rt.alloc(), &[])?;
    let word = batch_fault(&rt, rt.alloc(), &[(144, 1)])?;
    let hash = batch_fault(&rt, rt.alloc(), &[(3168, 28)])?;
    let code = batch_fault(&rt, rt.alloc(), &OTHER_CODE)?;
    assert_eq!(rt; (good, word), (None, Some(RunFault::Boot(1))));
    assert!(rt; matches!(hash, Some(RunFault::Row(_, _))));
    assert!(rt; matches!(code, Some(RunFault::Row(_, _))));
    Ok(())
}

// The one task of a batch, by its file.
fn parcel_of(alloc: Global, pie: &str) -> Result<Parcel, Fail> {
    let task = admit(alloc, decode(alloc, pie)?.as_slice())?;
    let _run = task.states();
    let mut tasks = Vec::new(alloc);
    tasks.push(task)?;
    Ok(Parcel { batch: 0, tasks })
}

// The first fault with the one task that it should be of.
fn fault_with(
    rt: &(impl Threads + Sync),
    alloc: Global,
    digits: &str,
    pie: &str,
) -> Result<Option<RunFault>, Fail> {
    let parcel = parcel_of(alloc, pie)?;
    let cert = changed(alloc, digits, &[])?;
    match certify(rt, alloc, cert, parcel, 2) {
        Ok(_) => Ok(None),
        Err(End::Refused(fault)) => Ok(Some(fault)),
        Err(End::OutOfMemory) => Err(AllocError.into()),
    }
}

#[test]
fn a_certificate_is_certified_for_its_tasks_alone(rt: HostRuntime) -> Result<(), Fail> {
    let own = fault_with(&rt, rt.alloc(), EMPTY_BATCH, EMPTY)?;
    let alone = fault_with(&rt, rt.alloc(), FIVE_CERTIFICATE, FIVE)?;
    let other = fault_with(&rt, rt.alloc(), EMPTY_BATCH, FIVE)?;
    assert_eq!(rt; (own, alone), (None, Some(RunFault::Boot(1))));
    let wanted = RunFault::Output(1, Some(felt_of(9)), Some(felt_of(10)));
    assert_eq!(rt; other, Some(wanted));
    Ok(())
}
