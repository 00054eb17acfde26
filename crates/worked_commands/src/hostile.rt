use crate::asking::{answer, file_cut};
use crate::replay::{changed, expect_line};
use crate::streams::with_failing_read;
use hex::decode;
use std::alloc::Global;
use std::process::Abort;
use std::test::Fail;
use std::thread::Threads;
use worked_vectors::certificates::FIVE_CERTIFICATE;
use worked_vectors::files::FIVE;

// The file FIVE with zeros behind it, one byte longer than a file may be.
fn too_long(alloc: Global) -> Result<Vec<u8>, Fail> {
    let mut file = decode(alloc, FIVE)?;
    for _ in 360..2_097_153 {
        file.push(0)?;
    }
    Ok(file)
}

// The file is replayed with this line.
fn expect_replayed(
    rt: &(impl Threads + Sync + AllocGlobal + Abort),
    file: Vec<u8>,
    line: &str,
) -> Result<(), Fail> {
    let found = answer(rt, "replay", file)?;
    expect_line(rt, &found, line);
    Ok(())
}

// The file has 360 bytes: a length at 8, the metadata at 12, the number of cells at 68, and cell k at 72 + 16 k, with its
// segment first, its tag at 6 and its value at 8.
#[test]
fn each_change_of_a_file_has_its_text(rt: HostRuntime) -> Result<(), Fail> {
    let alloc = rt.alloc();
    let rows: [(usize, &[u8], &str); 7] = [
        (0, &[0], "refused 2\n"),
        (8, &[0xff, 0xff, 0xff, 0xff], "refused 3 360\n"),
        (68, &[0xff, 0xff, 0xff, 0xff], "refused 3 360\n"),
        (12, b"[", "refused 4\n"),
        (79, &[2], "refused 10 0\n"),
        (211, &[7], "refused 10 8\n"),
        (345, &[7], "refused 10 17\n"),
    ];
    for (at, bytes, line) in rows {
        expect_replayed(&rt, changed(alloc, FIVE, &[(at, bytes)])?, line)?;
    }
    expect_replayed(&rt, file_cut(alloc, FIVE, 3)?, "refused 3 3\n")?;
    expect_replayed(&rt, file_cut(alloc, FIVE, 11)?, "refused 3 11\n")?;
    expect_replayed(&rt, too_long(alloc)?, "refused 1 2097153\n")
}

// Where the second read fails, the words end with a read fault, and nothing is written. The first read gives ten bytes.
fn expect_read_fault(
    rt: &(impl Threads + Sync + AllocGlobal + Abort),
    texts: &[&str],
    input: Vec<u8>,
) -> Result<(), Fail> {
    let (status, text) = with_failing_read(rt, texts, input, 10, 2)?;
    assert_eq!(rt; (status.number(), text.is_empty()), (4, true));
    Ok(())
}

#[test]
fn a_second_read_that_fails_writes_nothing(rt: HostRuntime) -> Result<(), Fail> {
    let file = decode(rt.alloc(), FIVE)?;
    expect_read_fault(&rt, &["replay"], file)?;
    let certificate = decode(rt.alloc(), FIVE_CERTIFICATE)?;
    expect_read_fault(&rt, &["check"], certificate)?;
    let script = b"settle 0\nsettle 0\n".to_vec(rt.alloc())?;
    expect_read_fault(&rt, &["batch", "--clients", "1"], script)
}
