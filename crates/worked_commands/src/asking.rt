//! Each helper borrows words, streams and answers, so that a test holds none where it may end early.

ghost use Rattle.std.specs.Prelude.{◌≤◌};

use hex::decode;
use shared_prover_cli::{MemSink, MemSource, Sink, Source, Status, SureSource, run_plain};
use std::alloc::{AllocError, Global};
use std::process::Abort;
use std::test::Fail;
use std::thread::Threads;

/// These texts as words of the program.
pub fn owned_words(alloc: Global, texts: &[&str]) -> Result<Vec<String>, AllocError> {
    let mut words = Vec::new(alloc);
    for text in texts {
        words.push(text.to_string(alloc)?)?;
    }
    Ok(words)
}

/// How the words end over this source, and whether a desk is handed out.
pub fn status_and_desk<R: Threads + Sync + AllocGlobal, S: Source, K: Sink>(
    rt: &R,
    words: &[String],
    source: &mut S,
    sink: &mut K,
) -> (Status, bool) {
    let ended = run_plain(rt, rt.alloc(), words, source, sink);
    (ended.status, ended.desk.is_some())
}

/// The same, and what is written to a sink that has so much room, takes so many bytes at a time and fails at these calls.
pub fn written_by<S: Source>(
    rt: &(impl Threads + Sync + AllocGlobal),
    words: &[String],
    source: &mut S,
    room: usize,
    takes: usize,
    failing: &[u64],
) -> Result<(Status, bool, Vec<u8>), Fail>
    requires { 1 ≤ takes }
{
    let failing = failing.to_vec(rt.alloc())?;
    let mut sink = MemSink::new(rt.alloc(), room, takes, failing)?;
    let (status, has_desk) = status_and_desk(rt, words, source, &mut sink);
    Ok((status, has_desk, sink.bytes().to_vec(rt.alloc())?))
}

/// How these words end over this source, and what is written to such a sink.
pub fn written_with<S: Source>(
    rt: &(impl Threads + Sync + AllocGlobal),
    texts: &[&str],
    source: &mut S,
    room: usize,
    takes: usize,
    failing: &[u64],
) -> Result<(Status, Vec<u8>), Fail>
    requires { 1 ≤ takes }
{
    let found = {
        let words = owned_words(rt.alloc(), texts)?;
        written_by(rt, words.as_slice(), source, room, takes, failing)
    };
    let (status, _, text) = found?;
    Ok((status, text))
}

/// What a command ends with over these bytes, and what it writes.
pub fn answer(
    rt: &(impl Threads + Sync + AllocGlobal),
    word: &str,
    bytes: Vec<u8>,
) -> Result<(u8, Vec<u8>), Fail> {
    answer_in_pieces(rt, word, bytes, 1000)
}

/// The same, where at most so many bytes come at a time.
pub fn answer_in_pieces(
    rt: &(impl Threads + Sync + AllocGlobal),
    word: &str,
    bytes: Vec<u8>,
    most: usize,
) -> Result<(u8, Vec<u8>), Fail>
    requires { 1 ≤ most }
{
    let found = {
        let mut source = MemSource::new(bytes, most, Vec::new(rt.alloc()));
        written_with(rt, &[word], &mut source, 4_000, 100, &[])
    };
    let (status, text) = found?;
    Ok((status.number(), text))
}

/// What the program ends with at these words and bytes, and what it writes, at most 100,000 bytes.
pub fn asked(
    rt: &(impl Threads + Sync + AllocGlobal),
    texts: &[&str],
    bytes: Vec<u8>,
) -> Result<(u8, Vec<u8>), Fail> {
    let found = {
        let mut source = SureSource::new(bytes);
        written_with(rt, texts, &mut source, 100_000, 4_000, &[])
    };
    let (status, text) = found?;
    Ok((status.number(), text))
}

/// What was found is this status and this text.
pub fn expect_found(rt: &impl Abort, found: &(u8, Vec<u8>), status: u8, text: &[u8]) {
    assert_eq!(rt; (found.0, found.1.as_slice()), (status, text));
}

/// A command ends so over these bytes.
pub fn expect_answer(
    rt: &(impl Threads + Sync + AllocGlobal + Abort),
    word: &str,
    bytes: Vec<u8>,
    status: u8,
    text: &[u8],
) -> Result<(), Fail> {
    let found = answer(rt, word, bytes)?;
    expect_found(rt, &found, status, text);
    Ok(())
}

/// The program ends so at these words and bytes.
pub fn expect_asked(
    rt: &(impl Threads + Sync + AllocGlobal + Abort),
    texts: &[&str],
    bytes: Vec<u8>,
    status: u8,
    text: &[u8],
) -> Result<(), Fail> {
    let found = asked(rt, texts, bytes)?;
    expect_found(rt, &found, status, text);
    Ok(())
}

/// The first bytes of a file, so many.
pub fn file_cut(alloc: Global, digits: &str, length: usize) -> Result<Vec<u8>, Fail> {
    let file = decode(alloc, digits)?;
    Ok(file.get(..length).unwrap_or(&[]).to_vec(alloc)?)
}

/// A file with a zero behind it.
pub fn file_and_zero(alloc: Global, digits: &str) -> Result<Vec<u8>, Fail> {
    let mut file = decode(alloc, digits)?;
    file.push(0)?;
    Ok(file)
}
