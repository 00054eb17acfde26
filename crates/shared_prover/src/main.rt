// The program: its streams, its words and its exit status.
#![tactic(auto)]

use batch_workers::OpenGate;
use shared_prover_cli::{
    Ended, Pick, Status, StdSink, StdSource, exit_code, explanation, pick, run_plain, run_serve,
    words_of,
};
use std::env;
use std::io::ErrorKind;
use std::process::ExitCode;
use std::rt::Env;

fn main(rt: HostRuntime) -> ExitCode {
    let ended = match arguments(&rt) {
        Ok(args) => {
            let mut source = StdSource::new(rt.stdin());
            let mut sink = StdSink::new(rt.stdout());
            let words = words_of(args.as_slice());
            match pick(words) {
                Pick::Plain => run_plain(&rt, rt.alloc(), words, &mut source, &mut sink),
                Pick::Serve => {
                    run_serve(&rt, rt.alloc(), words, &mut source, &mut sink, &OpenGate)
                }
            }
        }
        Err(status) => Ended { status, desk: None },
    };
    let status = ended.status;
    if let Some(line) = explanation(status) {
        let _ = eprintln!(rt; "shared_prover: {line}");
    }
    exit_code(status)
}

// The program's arguments. Where one is not UTF-8, no command has these words.
fn arguments<R: Env + AllocGlobal>(rt: &R) -> Result<Vec<String>, Status> {
    let args = match env::args(rt) {
        Ok(args) => args,
        Err(fault) if fault.kind() == ErrorKind::OutOfMemory => return Err(Status::OutOfMemory),
        Err(_) => return Err(Status::Usage),
    };
    args.collect(rt.alloc()).map_err(|_| Status::OutOfMemory)
}
