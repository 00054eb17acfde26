use crate::asking::{answer_in_pieces, expect_answer, file_and_zero, file_cut};
use hex::decode;
use std::alloc::Global;
use std::process::Abort;
use std::test::Fail;
use std::thread::Threads;
use worked_vectors::certificates::{
    BACK_CERTIFICATE, DOWN_3_CERTIFICATE, EMPTY_CERTIFICATE, FIVE_CERTIFICATE, HASH_CERTIFICATE,
    RANGE_CERTIFICATE, SILENT_CERTIFICATE, TALL_CERTIFICATE,
};
use worked_vectors::files::{ADDR, BACK, DOWN_3, EMPTY, FIVE, HASH0, RANGE_7, TALL};

// A certificate with other bytes at these places.
fn changed(alloc: Global, digits: &str, changes: &[(usize, u8)]) -> Result<Vec<u8>, Fail> {
    let mut bytes = decode(alloc, digits)?;
    for &(at, byte) in changes {
        if let Some(place) = bytes.get_mut(at) {
            *place = byte;
        }
    }
    Ok(bytes)
}

#[test]
fn a_placed_run_is_its_certificate(rt: HostRuntime) -> Result<(), Fail> {
    for (digits, certificate) in [
        (EMPTY, EMPTY_CERTIFICATE),
        (FIVE, FIVE_CERTIFICATE),
        (BACK, BACK_CERTIFICATE),
        (TALL, TALL_CERTIFICATE),
        (DOWN_3, DOWN_3_CERTIFICATE),
        (RANGE_7, RANGE_CERTIFICATE),
        (HASH0, HASH_CERTIFICATE),
    ] {
        let placed = decode(rt.alloc(), certificate)?;
        let file = decode(rt.alloc(), digits)?;
        expect_answer(&rt, "place", file, 0, placed.as_slice())?;
    }
    let addr = decode(rt.alloc(), ADDR)?;
    expect_answer(&rt, "place", addr, 1, b"refused 26 0 9\n")?;
    expect_answer(&rt, "place", Vec::new(rt.alloc()), 1, b"refused 3 0\n")?;
    Ok(())
}

#[test]
fn certificates_have_their_answers(rt: HostRuntime) -> Result<(), Fail> {
    for (digits, status, text) in [
        (EMPTY_CERTIFICATE, 0, "accepted alone 4 outputs\n"),
        (FIVE_CERTIFICATE, 0, "accepted alone 6 outputs 5\n"),
        (BACK_CERTIFICATE, 0, "accepted alone 7 outputs\n"),
        (TALL_CERTIFICATE, 0, "accepted alone 4 outputs\n"),
        (DOWN_3_CERTIFICATE, 0, "accepted alone 20 outputs 1\n"),
        (RANGE_CERTIFICATE, 0, "accepted alone 6 outputs\n"),
        (HASH_CERTIFICATE, 0, "accepted alone 4 outputs\n"),
        (SILENT_CERTIFICATE, 1, "refused run 7 0 - -\n"),
        ("", 1, "refused certificate 2 0\n"),
    ] {
        let bytes = decode(rt.alloc(), digits)?;
        expect_answer(&rt, "check", bytes, status, text.as_bytes())?;
    }
    Ok(())
}

// A certificate with other bytes at these places is refused so.
fn expect_refused(
    rt: &(impl Threads + Sync + AllocGlobal + Abort),
    digits: &str,
    changes: &[(usize, u8)],
    text: &str,
) -> Result<(), Fail> {
    let bytes = changed(rt.alloc(), digits, changes)?;
    expect_answer(rt, "check", bytes, 1, text.as_bytes())
}

#[test]
fn the_first_fault_is_named(rt: HostRuntime) -> Result<(), Fail> {
    for (at, byte, text) in [
        (0, 0, "refused certificate 1\n"),
        (8, 2, "refused certificate 3 8\n"),
        (8, 1, "refused run 1 1\n"),
        (24, 19, "refused certificate 4 17\n"),
        (372, 16, "refused run 2 1\n"),
        (16, 19, "refused run 2 2\n"),
        (508, 26, "refused run 3 1\n"),
        (24, 22, "refused run 3 3\n"),
        (452, 16, "refused run 6 2 11\n"),
        (74, 14, "refused run 6 0 2\n"),
    ] {
        expect_refused(&rt, FIVE_CERTIFICATE, &[(at, byte)], text)?;
    }
    let shorter = file_cut(rt.alloc(), FIVE_CERTIFICATE, 524)?;
    expect_answer(&rt, "check", shorter, 1, b"refused certificate 2 524\n")?;
    let longer = file_and_zero(rt.alloc(), FIVE_CERTIFICATE)?;
    expect_answer(&rt, "check", longer, 1, b"refused certificate 5 1\n")?;
    Ok(())
}

// The answer to a certificate with other bytes at these places and with more behind it, which comes byte by byte.
fn answer_by_bytes(
    rt: &(impl Threads + Sync + AllocGlobal),
    changes: &[(usize, u8)],
    more: &[u8],
) -> Result<Vec<u8>, Fail> {
    let mut bytes = changed(rt.alloc(), FIVE_CERTIFICATE, changes)?;
    bytes.extend_from_slice(more)?;
    Ok(answer_in_pieces(rt, "check", bytes, 1)?.1)
}

#[test]
fn bytes_that_come_one_by_one_have_the_same_answer(rt: HostRuntime) -> Result<(), Fail> {
    let many: &[(usize, u8)] = &[(61, 0xff), (62, 0xff), (63, 0xff), (64, 0xff)];
    let rows: [(&[(usize, u8)], &[u8], &str); 4] = [
        (&[], &[], "accepted alone 6 outputs 5\n"),
        (many, &[], "refused certificate 2 525\n"),
        (&[(8, 2)], &[], "refused certificate 3 8\n"),
        (&[], &[0], "refused certificate 5 1\n"),
    ];
    for (changes, more, text) in rows {
        let found = answer_by_bytes(&rt, changes, more)?;
        assert_eq!(rt; found.as_slice(), text.as_bytes());
    }
    Ok(())
}

#[test]
fn a_range_cell_is_below_two_to_the_32(rt: HostRuntime) -> Result<(), Fail> {
    let changes = [(348, 1), (352, 0)];
    expect_refused(&rt, RANGE_CERTIFICATE, &changes, "refused run 4 0\n")
}

// The last byte of the hash span's stop is at 56, and that of the cell with the stop pointer at 272. The first row has a wrong
// word, the second a span that is cut, the third one address more, and the last an instance that is absent.
#[test]
fn a_hash_span_has_whole_instances(rt: HostRuntime) -> Result<(), Fail> {
    let rows: [(&[(usize, u8)], &str); 4] = [
        (&[(480, 0)], "refused run 5 0\n"),
        (&[(56, 37), (272, 37)], "refused run 5 0\n"),
        (&[(56, 39), (272, 39)], "refused run 5 1\n"),
        (&[(56, 58), (272, 58)], "refused run 5 1\n"),
    ];
    for (changes, text) in rows {
        expect_refused(&rt, HASH_CERTIFICATE, changes, text)?;
    }
    Ok(())
}

// The range span has one address, without a cell, and the instance a wrong word.
#[test]
fn the_range_span_comes_before_the_hash_span(rt: HostRuntime) -> Result<(), Fail> {
    let changes = [(40, 18), (256, 18), (480, 0)];
    expect_refused(&rt, HASH_CERTIFICATE, &changes, "refused run 4 0\n")
}
