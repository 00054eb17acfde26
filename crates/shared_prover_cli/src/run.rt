ghost use Rattle.std.specs.Prelude.{◌≡◌, None};
ghost use Rattle.shared_prover_cli.specs.Commands.{IsPlainCommand, IsServeCommand};
ghost use Rattle.shared_prover_cli.specs.Runs.{EndsWith, stream};
ghost use Rattle.shared_prover_cli.specs.Working.Replies.{reply_view};
ghost use Rattle.shared_prover_cli.specs.Working.Writings.{EndsBy, IsWrittenWith};

use crate::answers::{reply_to, serve_reply};
use crate::ended::Ended;
use crate::reply::{Outcome, Reply};
use crate::status::Status;
use crate::stream::{Sink, Source};
use crate::told::Told;
use crate::whole::{InputFault, write_whole};
use batch_workers::Gate;
use command_words::{Command, command_in, one_command};
use std::alloc::{AllocError, Global};
use std::sync::Wait;
use std::thread::Threads;

/// Runs the command that the words, which are the program's arguments, ask for. Where it ran a script, the desk is handed out.
pub fn run_plain<R: Threads + Sync, S: Source, K: Sink>(
    rt: &R,
    alloc: Global,
    words: &[String],
    source: &mut S,
    sink: &mut K,
) -> Ended
    ensures { EndsWith IsPlainCommand words.now
        (stream S.left S.faults source.old source.new) (stream K.held K.faults sink.old sink.new) result.status result.desk }
{
    one_command();
    match command_in(alloc, words) {
        Ok(Some(Command::Serve(..))) => without_desk(Status::Usage),
        Ok(Some(command)) => ended(reply_to(rt, alloc, command, source), sink),
        Ok(None) => without_desk(Status::Usage),
        Err(AllocError) => without_desk(Status::OutOfMemory),
    }
}

/// Serves the script that the words ask to be served, by a thread for each client and each worker. What the gate holds back
/// changes no answer.
pub fn run_serve<R: Threads + Wait + Sync, S: Source, K: Sink, G: Gate>(
    rt: &R,
    alloc: Global,
    words: &[String],
    source: &mut S,
    sink: &mut K,
    gate: &G,
) -> Ended
    ensures { EndsWith IsServeCommand words.now
        (stream S.left S.faults source.old source.new) (stream K.held K.faults sink.old sink.new) result.status result.desk }
{
    one_command();
    match command_in(alloc, words) {
        Ok(Some(Command::Serve(clients, workers))) => {
            let replied = serve_reply(rt, alloc, source, clients, workers, gate);
            ended(replied, sink)
        }
        Ok(_) => without_desk(Status::Usage),
        Err(AllocError) => without_desk(Status::OutOfMemory),
    }
}

// Writes what was replied, if it was.
fn ended<K: Sink>(replied: Result<Told, InputFault>, sink: &mut K) -> Ended
    ensures { EndsBy replied (stream K.held K.faults sink.old sink.new) result.status result.desk }
{
    match replied {
        Ok(told) => Ended {
            status: written(&told.reply, sink),
            desk: told.desk,
        },
        Err(InputFault::ReadFault) => without_desk(Status::ReadFault),
        Err(InputFault::TooLong) => without_desk(Status::TooLong),
        Err(InputFault::OutOfMemory) => without_desk(Status::OutOfMemory),
    }
}

fn without_desk(status: Status) -> Ended
    ensures status { result.status ≡ status }
    ensures desk { result.desk ≡ None }
{
    Ended { status, desk: None }
}

// Writes the text of a reply. The status is the reply's, unless a write fails.
fn written<K: Sink>(reply: &Reply, sink: &mut K) -> Status
    ensures { IsWrittenWith (reply_view reply.now) (stream K.held K.faults sink.old sink.new) result }
{
    match write_whole(sink, reply.text.as_slice()) {
        Ok(()) => match reply.outcome {
            Outcome::Done => Status::Done,
            Outcome::Refused => Status::Refused,
            Outcome::Script => Status::Script,
        },
        Err(_) => Status::WriteFault,
    }
}
