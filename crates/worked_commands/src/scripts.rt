use crate::asking::{asked, expect_asked, owned_words, written_by};
use shared_prover_cli::SureSource;
use std::alloc::{AllocError, Global};
use std::test::Fail;
use std::thread::Threads;
use worked_vectors::files::{EMPTY, FIVE, TALL};

const EMPTY_HASH: &str = "4ae2a31bf9da6dec8e814ee65e6495560d58ecd3a1727ee49e5279ace5919187";

const FIVE_HASH: &str = "644b2c86fee53a4ad40c21efa0e8524e34c75966cf12fcbfe5a3ae40d0a8bcbd";

// So many lines that hand in this file.
fn put_submits(
    alloc: Global,
    script: &mut Vec<u8>,
    client: u32,
    digits: &str,
    times: u32,
) -> Result<(), AllocError> {
    for _ in 0..times {
        script.extend_from_slice(format!(in alloc; "submit {client} {digits}\n")?.as_bytes())?;
    }
    Ok(())
}

// A script that hands in these files, each by a client and so many times.
fn submits(alloc: Global, rows: &[(u32, &str, u32)]) -> Result<Vec<u8>, AllocError> {
    let mut script = Vec::new(alloc);
    for (client, digits, times) in rows {
        put_submits(alloc, &mut script, *client, digits, *times)?;
    }
    Ok(script)
}

// The lines that answer those, if all are admitted, and if the program does nothing.
fn put_admitted(
    alloc: Global,
    text: &mut Vec<u8>,
    client: u32,
    times: u32,
) -> Result<(), AllocError> {
    for number in 0..times {
        let line = format!(in alloc;
            "client {client} submit admitted {number} program {EMPTY_HASH} outputs\n"
        )?;
        text.extend_from_slice(line.as_bytes())?;
    }
    Ok(())
}

fn three_runs(alloc: Global) -> Result<Vec<u8>, AllocError> {
    submits(alloc, &[(0, EMPTY, 1), (0, FIVE, 2)])
}

// The transcript of these.
fn three_told(alloc: Global) -> Result<String, AllocError> {
    format!(in alloc;
        "client 0 submit admitted 0 program {EMPTY_HASH} outputs\nclient 0 submit admitted 1 program {FIVE_HASH} outputs 5\nclient 0 submit admitted 2 program {FIVE_HASH} outputs 5\nbatch 0 steps 16 jobs 0.0 0.1 0.2\nfact {EMPTY_HASH} outputs\nfact {FIVE_HASH} outputs 5\nend\n"
    )
}

// The status of the export of their batch, and the answer to what is exported.
fn three_exported(rt: &(impl Threads + Sync + AllocGlobal)) -> Result<(u8, Vec<u8>), Fail> {
    let words = ["export", "--batch=0", "--clients", "1"];
    let exported = asked(rt, &words, three_runs(rt.alloc())?)?;
    Ok((exported.0, asked(rt, &["check"], exported.1)?.1))
}

#[test]
fn three_runs_of_one_client_are_a_batch(rt: HostRuntime) -> Result<(), Fail> {
    let script = three_runs(rt.alloc())?;
    let text = three_told(rt.alloc())?;
    expect_asked(
        &rt,
        &["batch", "--clients", "1"],
        script,
        0,
        text.as_bytes(),
    )?;
    let (status, checked) = three_exported(&rt)?;
    let is_accepted = checked
        .as_slice()
        .starts_with(b"accepted batch 364 outputs 3 9 1256366875 ");
    assert_eq!(rt; (status, is_accepted), (0, true));
    let words = ["export", "--clients", "1", "--batch", "1"];
    let script = three_runs(rt.alloc())?;
    expect_asked(&rt, &words, script, 1, b"refused batch 1 1\n")
}

// The transcript of so many programs that do nothing, at least sixteen, with this line of the second batch.
fn empties_told(alloc: Global, jobs: u32, more: &str) -> Result<Vec<u8>, AllocError> {
    let full =
        "batch 0 steps 64 jobs 0.0 0.1 0.2 0.3 0.4 0.5 0.6 0.7 0.8 0.9 0.10 0.11 0.12 0.13 0.14 0.15\n";
    let end = format!(in alloc; "{full}{more}fact {EMPTY_HASH} outputs\nend\n")?;
    let mut text = Vec::new(alloc);
    put_admitted(alloc, &mut text, 0, jobs)?;
    text.extend_from_slice(end.as_bytes())?;
    Ok(text)
}

#[test]
fn a_batch_has_sixteen_jobs_at_most(rt: HostRuntime) -> Result<(), Fail> {
    let words = ["batch", "--clients", "1"];
    for (jobs, more) in [(16, ""), (17, "batch 1 steps 4 jobs 0.16\n")] {
        let script = submits(rt.alloc(), &[(0, EMPTY, jobs)])?;
        let text = empties_told(rt.alloc(), jobs, more)?;
        expect_asked(&rt, &words, script, 0, text.as_slice())?;
    }
    Ok(())
}

// The beginning of the transcript of 65 programs by client 0 and one by client 1.
fn quota_told(alloc: Global) -> Result<Vec<u8>, AllocError> {
    let mut text = Vec::new(alloc);
    put_admitted(alloc, &mut text, 0, 64)?;
    text.extend_from_slice(b"client 0 submit quota 1 65 64\n")?;
    put_admitted(alloc, &mut text, 1, 1)?;
    Ok(text)
}

#[test]
fn a_client_has_a_quota_of_its_own(rt: HostRuntime) -> Result<(), Fail> {
    let script = submits(rt.alloc(), &[(0, EMPTY, 65), (1, EMPTY, 1)])?;
    let (status, told) = asked(&rt, &["batch", "--clients", "2"], script)?;
    let text = quota_told(rt.alloc())?;
    let begins = told.as_slice().starts_with(text.as_slice());
    assert_eq!(rt; (status, begins), (0, true));
    Ok(())
}

#[test]
fn a_gap_behind_a_run_costs_no_step(rt: HostRuntime) -> Result<(), Fail> {
    let script = submits(rt.alloc(), &[(0, TALL, 1), (0, FIVE, 1)])?;
    let (status, told) = asked(&rt, &["batch", "--clients", "1"], script)?;
    let end = format!(in rt.alloc();
        "batch 0 steps 10 jobs 0.0 0.1\nfact {EMPTY_HASH} outputs\nfact {FIVE_HASH} outputs 5\nend\n"
    )?;
    let ends = told.as_slice().ends_with(end.as_bytes());
    assert_eq!(rt; (status, ends), (0, true));
    Ok(())
}

// Hands in a run, asks for its fact before and after it is registered, and where two jobs stand.
fn questions(alloc: Global) -> Result<Vec<u8>, AllocError> {
    let script = format!(in alloc;
        "submit 0 {FIVE}\nask 0 {FIVE_HASH} 5\nsettle 0\nask 0 {FIVE_HASH} 5\nstatus 0 0\nstatus 0 1\n"
    )?;
    script.as_bytes().to_vec(alloc)
}

// The transcript of these.
fn answers(alloc: Global) -> Result<Vec<u8>, AllocError> {
    let text = format!(in alloc;
        "client 0 submit admitted 0 program {FIVE_HASH} outputs 5\nclient 0 ask no\nclient 0 ask yes\nclient 0 status 0 registered\nclient 0 status 1 unknown\nbatch 0 steps 6 jobs 0.0\nfact {FIVE_HASH} outputs 5\nend\n"
    )?;
    text.as_bytes().to_vec(alloc)
}

#[test]
fn questions_have_their_answers_and_bad_lines_are_named(rt: HostRuntime) -> Result<(), Fail> {
    let words = ["batch", "--clients", "1"];
    let script = questions(rt.alloc())?;
    let text = answers(rt.alloc())?;
    expect_asked(&rt, &words, script, 0, text.as_slice())?;
    for (script, status, text) in [
        (b"".as_slice(), 0, "end\n"),
        (b"submit 1 00\n", 3, "script 1 4\n"),
        (b"settle 0\nsettle 0", 3, "script 2 1\n"),
    ] {
        let script = script.to_vec(rt.alloc())?;
        expect_asked(&rt, &words, script, status, text.as_bytes())?;
    }
    Ok(())
}

#[test]
fn made_scripts_are_served(rt: HostRuntime) -> Result<(), Fail> {
    let four = b"jobs 4\nbatches 1\nfacts 4\nsteps 4312\n";
    expect_asked(&rt, &["trial", "4"], Vec::new(rt.alloc()), 0, four)?;
    let forty = b"jobs 40\nbatches 3\nfacts 40\nsteps 39840\n";
    expect_asked(&rt, &["trial", "40"], Vec::new(rt.alloc()), 0, forty)
}

// How the questions end at a sink that takes 16 bytes a call and fails at this one, whether a desk is handed out, and what is
// held.
fn with_failing_call(
    rt: &(impl Threads + Sync + AllocGlobal),
    failing: u64,
) -> Result<(u8, bool, Vec<u8>), Fail> {
    let found = {
        let words = owned_words(rt.alloc(), &["batch", "--clients", "1"])?;
        let mut source = SureSource::new(questions(rt.alloc())?);
        written_by(rt, words.as_slice(), &mut source, 4_000, 16, &[failing])
    };
    let (status, has_desk, held) = found?;
    Ok((status.number(), has_desk, held))
}

// The sink fails at its k-th call, for each k up to the first run that ends well.
#[test]
fn a_sink_that_fails_holds_a_beginning(rt: HostRuntime) -> Result<(), Fail> {
    let text = answers(rt.alloc())?;
    let calls = text.len().div_ceil(16) as u64;
    for failing in 1..calls + 2 {
        let (status, has_desk, held) = with_failing_call(&rt, failing)?;
        let wanted = if failing <= calls { 5 } else { 0 };
        let begins = text.as_slice().starts_with(held.as_slice());
        let is_whole = held.len() == text.len();
        assert_eq!(rt; (status, begins, has_desk), (wanted, true, true));
        assert!(rt; failing <= calls || is_whole);
    }
    Ok(())
}
