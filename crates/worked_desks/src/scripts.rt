//! The lines and refusals of scripts are those of docs/SERVICE.md; the transcripts were written by hand from what the files
//! show.

use cairo_model::{End, ReadRefusal, Refusal};
use desk_core::{Desk, Offer};
use desk_script::{
    Line, Script, ScriptKind, ScriptRefusal, read_script, read_script_by_threads, transcript,
};
use hex::decode;
use pie_replay::admit;
use std::alloc::{AllocError, Global};
use std::test::Fail;
use worked_vectors::files::FIVE;

const FIVE_HASH: &str = "644b2c86fee53a4ad40c21efa0e8524e34c75966cf12fcbfe5a3ae40d0a8bcbd";

// Why what was read is no script.
fn refusal(read: Result<Script, End<ScriptRefusal>>) -> Option<ScriptRefusal> {
    match read {
        Err(End::Refused(refusal)) => Some(refusal),
        _ => None,
    }
}

// Whether these are the five lines of the script that has one of each kind and an empty offer.
fn are_the_five(lines: &[Line]) -> bool {
    match lines {
        [
            Line::Submit(1, two),
            Line::Submit(0, none),
            Line::Ask(0, fact),
            Line::Status(1, 4_294_967_295),
            Line::Settle(0),
        ] => {
            two.as_slice() == [0, 255].as_slice()
                && none.is_empty()
                && fact.outputs.as_slice().len() == 1
        }
        _ => false,
    }
}

// Whether those lines were read.
fn is_the_five(read: Result<Script, End<ScriptRefusal>>) -> bool {
    match read {
        Ok(script) => are_the_five(script.lines.as_slice()),
        Err(_) => false,
    }
}

#[test]
fn each_kind_of_line_is_read(rt: HostRuntime) -> Result<(), Fail> {
    let text = format!(in rt.alloc();
        "submit 1 00fF\nsubmit 0 \nask 0 {FIVE_HASH} 5\nstatus 1 4294967295\nsettle 0\n"
    )?;
    let alloc = rt.alloc();
    assert!(rt; is_the_five(read_script(alloc, text.as_bytes(), 2)));
    assert!(rt; is_the_five(read_script_by_threads(&rt, alloc, text.as_bytes(), 2)));
    Ok(())
}

#[test]
fn the_first_bad_line_is_named_with_its_first_fault(rt: HostRuntime) -> Result<(), Fail> {
    let alloc = rt.alloc();
    let rows: [(&[u8], u32, ScriptKind); 12] = [
        (b"settle 0\nsettle 0", 2, ScriptKind::NoEnd),
        (b"frob", 1, ScriptKind::NoEnd),
        (b"SETTLE 0\n", 1, ScriptKind::Verb),
        (b"\n", 1, ScriptKind::Verb),
        (b"settle 0 \n", 1, ScriptKind::Fields),
        (b"submit  0 00\n", 1, ScriptKind::Fields),
        (b"submit 1 00\n", 1, ScriptKind::Client),
        (b"status 00 x\n", 1, ScriptKind::Client),
        (b"submit 0 000\n", 1, ScriptKind::Hex),
        (b"ask 0 ab 1\n", 1, ScriptKind::Hex),
        (b"status 0 4294967296\n", 1, ScriptKind::Number),
        (b"settle 0\nstatus 0 01\nfrob\n", 2, ScriptKind::Number),
    ];
    for (text, line, kind) in rows {
        let wanted = Some(ScriptRefusal { line, kind });
        assert_eq!(rt; refusal(read_script(alloc, text, 1)), wanted);
        assert_eq!(rt;
            refusal(read_script_by_threads(&rt, alloc, text, 1)),
            wanted
        );
    }
    assert_eq!(rt; ScriptKind::TooMany.number(), 7);
    Ok(())
}

#[test]
fn an_empty_script_is_taken_and_a_new_desk_ends_at_once(rt: HostRuntime) -> Result<(), Fail> {
    let alloc = rt.alloc();
    assert!(rt; read_script(alloc, b"", 1)?.lines.is_empty());
    let told = {
        let desk = Desk::new(alloc, 1)?;
        transcript(alloc, &desk)
    };
    assert_eq!(rt; told?.as_slice(), b"end\n".as_slice());
    Ok(())
}

// The client hands it in, with the pass of its number.
fn hand_in(alloc: Global, desk: &mut Desk, client: u32, offer: Offer) -> Result<(), AllocError> {
    if client < desk.clients() {
        let _ = desk.submit(alloc, client, client, offer)?;
        return Ok(());
    }
    Err(AllocError)
}

// What is told of a desk to which client 0 hands in the program that writes 5, and client 1 a file that breaks off.
fn told_of_two(alloc: Global, desk: &mut Desk) -> Result<Vec<u8>, Fail> {
    let checked = admit(alloc, decode(alloc, FIVE)?.as_slice())?;
    hand_in(alloc, desk, 0, Offer::Accepted(checked))?;
    let refusal = Refusal::Read(ReadRefusal::Truncated(359));
    hand_in(alloc, desk, 1, Offer::Refused(refusal))?;
    let _ = desk.seal(alloc, 0)?;
    Ok(transcript(alloc, desk)?)
}

#[test]
fn a_transcript_tells_of_offers_and_batches(rt: HostRuntime) -> Result<(), Fail> {
    let told = {
        let mut desk = Desk::new(rt.alloc(), 2)?;
        told_of_two(rt.alloc(), &mut desk)
    };
    let told = told?;
    let expected = format!(in rt.alloc();
        "client 0 submit admitted 0 program {FIVE_HASH} outputs 5\nclient 1 submit refused 3 359\nbatch 0 steps 6 jobs 0.0\nend\n"
    )?;
    assert_eq!(rt; told.as_slice(), expected.as_bytes());
    Ok(())
}
