//! The file of a program that copies its three pointers and returns was made by a program that shares nothing with this
//! one, and the refusals of its changed copies follow from the table of docs/PIE.md.

use cairo_model::{End, Pie, ReadRefusal};
use pie_format::{read, write};
use std::alloc::{AllocError, Global};
use std::process::Abort;
use std::test::Fail;

const EMPTY: [u8; 264] = [
    0x43, 0x50, 0x49, 0x45, 0x36, 0x34, 0x00, 0x01, 0x00, 0x00, 0x00, 0x38, 0x7b, 0x22, 0x6d, 0x61,
    0x69, 0x6e, 0x22, 0x3a, 0x30, 0x2c, 0x22, 0x73, 0x69, 0x7a, 0x65, 0x73, 0x22, 0x3a, 0x5b, 0x34,
    0x2c, 0x38, 0x2c, 0x30, 0x2c, 0x30, 0x2c, 0x30, 0x2c, 0x30, 0x2c, 0x30, 0x5d, 0x2c, 0x22, 0x73,
    0x74, 0x65, 0x70, 0x73, 0x22, 0x3a, 0x34, 0x2c, 0x22, 0x76, 0x65, 0x72, 0x73, 0x69, 0x6f, 0x6e,
    0x22, 0x3a, 0x31, 0x7d, 0x00, 0x00, 0x00, 0x0c, 0x00, 0x00, 0x00, 0x00, 0x00, 0x00, 0x00, 0x00,
    0x48, 0x0a, 0x7f, 0xfb, 0x7f, 0xff, 0x80, 0x00, 0x00, 0x00, 0x00, 0x00, 0x00, 0x01, 0x00, 0x00,
    0x48, 0x0a, 0x7f, 0xfc, 0x7f, 0xff, 0x80, 0x00, 0x00, 0x00, 0x00, 0x00, 0x00, 0x02, 0x00, 0x00,
    0x48, 0x0a, 0x7f, 0xfd, 0x7f, 0xff, 0x80, 0x00, 0x00, 0x00, 0x00, 0x00, 0x00, 0x03, 0x00, 0x00,
    0x20, 0x8b, 0x7f, 0xff, 0x7f, 0xff, 0x7f, 0xfe, 0x00, 0x01, 0x00, 0x00, 0x00, 0x00, 0x00, 0x01,
    0x00, 0x00, 0x00, 0x02, 0x00, 0x00, 0x00, 0x00, 0x00, 0x01, 0x00, 0x00, 0x00, 0x01, 0x00, 0x01,
    0x00, 0x00, 0x00, 0x03, 0x00, 0x00, 0x00, 0x00, 0x00, 0x01, 0x00, 0x00, 0x00, 0x02, 0x00, 0x01,
    0x00, 0x00, 0x00, 0x04, 0x00, 0x00, 0x00, 0x00, 0x00, 0x01, 0x00, 0x00, 0x00, 0x03, 0x00, 0x01,
    0x00, 0x00, 0x00, 0x05, 0x00, 0x00, 0x00, 0x00, 0x00, 0x01, 0x00, 0x00, 0x00, 0x04, 0x00, 0x01,
    0x00, 0x00, 0x00, 0x06, 0x00, 0x00, 0x00, 0x00, 0x00, 0x01, 0x00, 0x00, 0x00, 0x05, 0x00, 0x01,
    0x00, 0x00, 0x00, 0x02, 0x00, 0x00, 0x00, 0x00, 0x00, 0x01, 0x00, 0x00, 0x00, 0x06, 0x00, 0x01,
    0x00, 0x00, 0x00, 0x03, 0x00, 0x00, 0x00, 0x00, 0x00, 0x01, 0x00, 0x00, 0x00, 0x07, 0x00, 0x01,
    0x00, 0x00, 0x00, 0x04, 0x00, 0x00, 0x00, 0x00,
];

fn refusal(alloc: Global, bytes: &[u8]) -> Option<End<ReadRefusal>> {
    match read(alloc, bytes) {
        Ok(_) => None,
        Err(end) => Some(end),
    }
}

fn byte_in(changes: &[(usize, u8)], place: usize, byte: u8) -> u8 {
    for (changed, new) in changes {
        if *changed == place {
            return *new;
        }
    }
    byte
}

fn changed(alloc: Global, changes: &[(usize, u8)]) -> Result<Vec<u8>, AllocError> {
    let mut bytes = Vec::new(alloc);
    for (place, byte) in EMPTY.iter().enumerate() {
        bytes.push(byte_in(changes, place, *byte))?;
    }
    Ok(bytes)
}

// Puts a text of the metadata there, with its length before it and the cells of the file behind it.
fn put_text(bytes: &mut Vec<u8>, text: &str) -> Result<(), AllocError> {
    let (_, cells) = EMPTY.split_at(68);
    bytes.extend_from_slice(&((text.len() % 65_536) as u32).to_be_bytes())?;
    bytes.extend_from_slice(text.as_bytes())?;
    bytes.extend_from_slice(cells)
}

// The file with another text of the metadata.
fn with_text(alloc: Global, text: &str) -> Result<Vec<u8>, AllocError> {
    let (magic, _) = EMPTY.split_at(8);
    let mut bytes = magic.to_vec(alloc)?;
    put_text(&mut bytes, text)?;
    Ok(bytes)
}

fn zeros(alloc: Global, count: usize) -> Result<Vec<u8>, AllocError> {
    let mut bytes = Vec::new(alloc);
    for _ in 0..count {
        bytes.push(0)?;
    }
    Ok(bytes)
}

fn expect_numbers(rt: &impl Abort, pie: &Pie) {
    assert_eq!(rt; (pie.main, pie.steps, pie.cells.len()), (0, 4, 12));
    assert_eq!(rt; pie.sizes.as_slice(), [4, 8, 0, 0, 0, 0, 0].as_slice());
}

// Whether what is read of the bytes is written as the file.
fn is_written_so(alloc: Global, bytes: &[u8]) -> Result<bool, AllocError> {
    let written = match read(alloc, bytes) {
        Ok(pie) => write(alloc, &pie),
        Err(_) => return Ok(false),
    };
    Ok(written?.as_slice() == EMPTY.as_slice())
}

#[test]
fn what_is_written_is_read_again(rt: HostRuntime) -> Result<(), Fail> {
    let is_read = match read(rt.alloc(), EMPTY.as_slice()) {
        Ok(pie) => {
            expect_numbers(&rt, &pie);
            true
        }
        Err(_) => false,
    };
    assert!(rt; is_read);
    assert!(rt; is_written_so(rt.alloc(), EMPTY.as_slice())?);
    Ok(())
}

#[test]
fn another_spelling_of_the_metadata_is_written_in_the_one_way(rt: HostRuntime) -> Result<(), Fail> {
    for text in [
        "{ \"version\": 1, \"steps\": 4, \"sizes\": [4, 8, 0, 0, 0, 0, 0], \"main\": 0 }",
        "{\"steps\":9,\"m\\u0061in\":0,\"sizes\":[4,8,0,0,0,0,0],\"version\":1,\"steps\":4}",
    ] {
        let spelled = with_text(rt.alloc(), text)?;
        let is_written = is_written_so(rt.alloc(), spelled.as_slice())?;
        assert!(rt; is_written);
    }
    Ok(())
}

// The refusal of the file with other bytes at these places.
fn refusal_with(
    alloc: Global,
    changes: &[(usize, u8)],
) -> Result<Option<End<ReadRefusal>>, AllocError> {
    let bytes = changed(alloc, changes)?;
    Ok(refusal(alloc, bytes.as_slice()))
}

#[test]
fn the_first_refusal_in_the_bytes_is_answered(rt: HostRuntime) -> Result<(), Fail> {
    let rows: [(&[(usize, u8)], ReadRefusal); 12] = [
        // a zip file
        (
            &[(0, 0x50), (1, 0x4b), (2, 3), (3, 4)],
            ReadRefusal::BadMagic,
        ),
        (&[(7, 0), (71, 13)], ReadRefusal::BadMagic),
        // one cell more than there is, with a text that is none
        (&[(71, 13), (12, 0x5b)], ReadRefusal::Truncated(264)),
        (&[(8, 0xff)], ReadRefusal::Truncated(264)),
        (&[(12, 0x5b)], ReadRefusal::BadMetadata),
        (&[(66, 0x32), (41, 0x31)], ReadRefusal::BadVersion(2)),
        (&[(41, 0x31)], ReadRefusal::BadSizes),
        // a tag 2, a segment 7, two cells at one place, and cell 4 before a byte too many
        (&[(159, 2), (249, 7)], ReadRefusal::BadCell(5)),
        (&[(249, 7)], ReadRefusal::BadCell(11)),
        (&[(93, 0)], ReadRefusal::BadCell(1)),
        (&[(71, 11), (137, 9)], ReadRefusal::BadCell(4)),
        (&[(71, 11)], ReadRefusal::TrailingBytes(16)),
    ];
    for (changes, expected) in rows {
        let found = refusal_with(rt.alloc(), changes)?;
        assert_eq!(rt; found, Some(End::Refused(expected)));
    }
    Ok(())
}

fn refusal_of_text(alloc: Global, text: &str) -> Result<Option<End<ReadRefusal>>, AllocError> {
    let bytes = with_text(alloc, text)?;
    Ok(refusal(alloc, bytes.as_slice()))
}

#[test]
fn the_first_refusal_in_the_metadata_is_answered(rt: HostRuntime) -> Result<(), Fail> {
    let rows = [
        (
            "{\"main\":0,\"sizes\":[4,8,0,0,0,0,0],\"steps\":4}",
            ReadRefusal::BadMetadata,
        ),
        (
            "{\"main\":0,\"sizes\":[4,8,0,0,0,0,0],\"steps\":4.0,\"version\":1}",
            ReadRefusal::BadMetadata,
        ),
        (
            "{\"main\":0,\"sizes\":[4],\"steps\":65537,\"version\":2}",
            ReadRefusal::BadVersion(2),
        ),
        (
            "{\"main\":0,\"sizes\":[4,8,0,0,0,0],\"steps\":65537,\"version\":1}",
            ReadRefusal::BadSizes,
        ),
        (
            "{\"main\":0,\"sizes\":[2147483648,8,0,0,0,0,0],\"steps\":4,\"version\":1}",
            ReadRefusal::BadSizes,
        ),
        (
            "{\"main\":0,\"sizes\":[2147483647,0,0,0,0,0,0,0,0,0,0,0,0,0,0,0,0,0,0,0,0,0,0,0,0,0,0,0,0,0,0,0,0,0,0,0,0,0,0,0,0,0,0,0,0,0,0,0,0,0,0,0,0,0,0,0,0,0,0,0,0,0,0,0,0],\"steps\":4,\"version\":1}",
            ReadRefusal::TooManySegments(65),
        ),
        (
            "{\"main\":0,\"sizes\":[2147483647,8,0,0,0,0,0],\"steps\":65537,\"version\":1}",
            ReadRefusal::TooLarge(2147483655),
        ),
        (
            "{\"main\":0,\"sizes\":[4,65533,0,0,0,0,0],\"steps\":4,\"version\":1}",
            ReadRefusal::TooLarge(65537),
        ),
        (
            "{\"main\":0,\"sizes\":[4,7,0,0,0,0,0],\"steps\":65537,\"version\":1}",
            ReadRefusal::TooManySteps(65537),
        ),
        (
            "{\"main\":0,\"sizes\":[4,7,0,0,0,0,0],\"steps\":65536,\"version\":1}",
            ReadRefusal::BadCell(11),
        ),
    ];
    for (text, expected) in rows {
        let found = refusal_of_text(rt.alloc(), text)?;
        assert_eq!(rt; found, Some(End::Refused(expected)));
    }
    Ok(())
}

#[test]
fn each_beginning_of_a_file_is_truncated(rt: HostRuntime) -> Result<(), Fail> {
    for length in 0..264 {
        let (bytes, _) = EMPTY.split_at(length);
        let truncated = ReadRefusal::Truncated(length as u64);
        assert_eq!(rt; refusal(rt.alloc(), bytes), Some(End::Refused(truncated)));
    }
    Ok(())
}

fn refusal_of_zeros(alloc: Global, count: usize) -> Result<Option<End<ReadRefusal>>, AllocError> {
    let bytes = zeros(alloc, count)?;
    Ok(refusal(alloc, bytes.as_slice()))
}

#[test]
fn the_length_is_tested_before_the_magic(rt: HostRuntime) -> Result<(), Fail> {
    for (count, expected) in [
        (2_097_152, ReadRefusal::BadMagic),
        (2_097_153, ReadRefusal::TooLong(2_097_153)),
    ] {
        let found = refusal_of_zeros(rt.alloc(), count)?;
        assert_eq!(rt; found, Some(End::Refused(expected)));
    }
    Ok(())
}
