use batch_workers::Gate;
use shared_prover_cli::{MemSink, SureSource, run_plain, run_serve};
use std::alloc::{AllocError, Global};
use std::sync::Wait;
use std::test::Fail;
use std::thread::Threads;

// More than any transcript here has, and the most that a write takes.
const ROOM: usize = 100_000;

const PIECE: usize = 4_000;

fn words_of(alloc: Global, texts: &[&str]) -> Result<Vec<String>, AllocError> {
    let mut words = Vec::new(alloc);
    for text in texts {
        words.push(text.to_string(alloc)?)?;
    }
    Ok(words)
}

/// How a call ended: the number of its status, whether it handed out a desk, and what it wrote.
#[derive(Drop)]
pub struct Answer {
    pub status: u8,
    pub has_desk: bool,
    pub text: Vec<u8>,
}

/// How `run_serve` ends at these words and bytes.
pub fn served(
    rt: &(impl Threads + Wait + Sync + AllocGlobal),
    texts: &[&str],
    bytes: Vec<u8>,
    gate: &impl Gate,
) -> Result<Answer, Fail> {
    let words = words_of(rt.alloc(), texts)?;
    let mut source = SureSource::new(bytes);
    let mut sink = MemSink::new(rt.alloc(), ROOM, PIECE, Vec::new(rt.alloc()))?;
    let (status, has_desk) = {
        let ended = run_serve(
            rt,
            rt.alloc(),
            words.as_slice(),
            &mut source,
            &mut sink,
            gate,
        );
        (ended.status.number(), ended.desk.is_some())
    };
    Ok(Answer {
        status,
        has_desk,
        text: sink.bytes().to_vec(rt.alloc())?,
    })
}

/// How `run_plain` ends at these words and bytes.
pub fn run_alone(
    rt: &(impl Threads + Sync + AllocGlobal),
    texts: &[&str],
    bytes: Vec<u8>,
) -> Result<Answer, Fail> {
    let words = words_of(rt.alloc(), texts)?;
    let mut source = SureSource::new(bytes);
    let mut sink = MemSink::new(rt.alloc(), ROOM, PIECE, Vec::new(rt.alloc()))?;
    let (status, has_desk) = {
        let ended = run_plain(rt, rt.alloc(), words.as_slice(), &mut source, &mut sink);
        (ended.status.number(), ended.desk.is_some())
    };
    Ok(Answer {
        status,
        has_desk,
        text: sink.bytes().to_vec(rt.alloc())?,
    })
}
