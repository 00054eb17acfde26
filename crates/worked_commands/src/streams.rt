ghost use Rattle.std.specs.Prelude.{◌≤◌};

use crate::asking::{owned_words, status_and_desk, written_with};
use hex::decode;
use shared_prover_cli::{MemSource, Status, StdSink, StdSource, SureSink, SureSource};
use std::test::Fail;
use std::thread::Threads;
use worked_vectors::files::FIVE;

// What `replay` answers to the program that writes 5.
const LINE: &[u8; 92] =
    b"admitted program 644b2c86fee53a4ad40c21efa0e8524e34c75966cf12fcbfe5a3ae40d0a8bcbd outputs 5\n";

// How `replay` ends over the program that writes 5, which comes in such pieces, and what is written in such pieces.
fn replayed_in_pieces(
    rt: &(impl Threads + Sync + AllocGlobal),
    gives: usize,
    takes: usize,
) -> Result<(Status, Vec<u8>), Fail>
    requires gives { 1 ≤ gives }
    requires takes { 1 ≤ takes }
{
    let five = decode(rt.alloc(), FIVE)?;
    let mut source = MemSource::new(five, gives, Vec::new(rt.alloc()));
    written_with(rt, &["replay"], &mut source, 100, takes, &[])
}

#[test]
fn answers_whatever_the_pieces(rt: HostRuntime) -> Result<(), Fail> {
    for (gives, takes) in [(1, 1), (1, 3), (100, 2)] {
        let (status, text) = replayed_in_pieces(&rt, gives, takes)?;
        assert_eq!(rt; (status, text.as_slice()), (Status::Done, LINE.as_slice()));
    }
    Ok(())
}

/// How the words end where so many bytes come at a time and this read fails, and what is written.
pub fn with_failing_read(
    rt: &(impl Threads + Sync + AllocGlobal),
    texts: &[&str],
    input: Vec<u8>,
    gives: usize,
    failing: u64,
) -> Result<(Status, Vec<u8>), Fail>
    requires { 1 ≤ gives }
{
    let failing = [failing].to_vec(rt.alloc())?;
    let mut source = MemSource::new(input, gives, failing);
    written_with(rt, texts, &mut source, 100, 100, &[])
}

#[test]
fn a_failing_read_writes_nothing(rt: HostRuntime) -> Result<(), Fail> {
    for failing in [1, 2, 6] {
        let input = b"hello".to_vec(rt.alloc())?;
        let (status, text) = with_failing_read(&rt, &["replay"], input, 1, failing)?;
        assert_eq!(rt; (status.number(), text.is_empty()), (4, true));
    }
    Ok(())
}

// How `replay` ends over the program that writes 5 where the sink has such room and fails at this call, and what it holds.
fn with_failing_write(
    rt: &(impl Threads + Sync + AllocGlobal),
    room: usize,
    failing: u64,
) -> Result<(Status, Vec<u8>), Fail> {
    let mut source = SureSource::new(decode(rt.alloc(), FIVE)?);
    written_with(rt, &["replay"], &mut source, room, 2, &[failing])
}

#[test]
fn a_failing_write_leaves_a_beginning(rt: HostRuntime) -> Result<(), Fail> {
    for (room, failing, held) in [(100, 2, b"ad".as_slice()), (100, 1, b""), (3, 9, b"adm")] {
        let (status, text) = with_failing_write(&rt, room, failing)?;
        assert_eq!(rt; (status.number(), text.as_slice()), (5, held));
    }
    Ok(())
}

// How these words end over five letters.
fn status_over_letters(
    rt: &(impl Threads + Sync + AllocGlobal),
    texts: &[&str],
) -> Result<Status, Fail> {
    let words = owned_words(rt.alloc(), texts)?;
    let mut source = SureSource::new(b"hello".to_vec(rt.alloc())?);
    let (status, _) = status_and_desk(rt, words.as_slice(), &mut source, &mut SureSink::new());
    Ok(status)
}

#[test]
fn other_words_are_usage(rt: HostRuntime) -> Result<(), Fail> {
    let none: [&str; 0] = [];
    for texts in [
        none.as_slice(),
        &["frob"],
        &["Replay"],
        &["replay "],
        &["replay", "replay"],
        &["replay", "--help"],
        &["make", "0"],
        &["make", "257"],
        &["export", "--clients", "1"],
        &["batch", "--clients", "1", "--clients", "2"],
        &["serve", "--clients", "1", "--workers", "1"],
    ] {
        let status = status_over_letters(&rt, texts)?;
        assert_eq!(rt; status.number(), 2);
    }
    Ok(())
}

// How the words end over a reader of std, and what is written to a writer that takes all.
fn written_to_vec(
    rt: &(impl Threads + Sync + AllocGlobal),
    words: &[String],
    file: &[u8],
) -> (Status, Vec<u8>) {
    let mut bytes = Vec::new(rt.alloc());
    let status = {
        let mut source = StdSource::new(file);
        let mut sink = StdSink::new(&mut bytes);
        status_and_desk(rt, words, &mut source, &mut sink).0
    };
    (status, bytes)
}

// The same, with a writer that has room for three bytes.
fn written_to_three(
    rt: &(impl Threads + Sync + AllocGlobal),
    words: &[String],
    file: &[u8],
) -> (Status, [u8; 3]) {
    let mut room = [0u8; 3];
    let status = {
        let mut source = StdSource::new(file);
        let mut sink = StdSink::new(room.as_mut_slice());
        status_and_desk(rt, words, &mut source, &mut sink).0
    };
    (status, room)
}

#[test]
fn reads_from_a_reader_and_writes_to_a_writer_of_std(rt: HostRuntime) -> Result<(), Fail> {
    let words = owned_words(rt.alloc(), &["replay"])?;
    let five = decode(rt.alloc(), FIVE)?;
    let (status, bytes) = written_to_vec(&rt, words.as_slice(), five.as_slice());
    let (stopped, room) = written_to_three(&rt, words.as_slice(), five.as_slice());
    assert_eq!(rt; status.number(), 0);
    assert_eq!(rt; bytes.as_slice(), LINE.as_slice());
    assert_eq!(rt; stopped.number(), 5);
    assert_eq!(rt; room.as_slice(), b"adm".as_slice());
    Ok(())
}
