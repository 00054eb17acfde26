ghost use Rattle.std.specs.Prelude.{◌≡◌, IfOk};
ghost use Rattle.clap.specs.Simple.{app_of};
ghost use Rattle.command_words.specs.Readings.{bare_app, clients_and_batch_app, clients_and_workers_app, clients_app, jobs_app};
ghost use Rattle.command_words.specs.Working.FirstWords.{app_after};

use crate::first_word::FirstWord;
use clap::{Arg, ArgAction, Command as Reader};
use std::alloc::{AllocError, Global};

/// What reads the words after this one.
pub fn reader_of<'a>(alloc: Global, first: FirstWord) -> Result<Reader<'a>, AllocError>
    ensures { IfOk result (λ reader. app_of reader ≡ app_after first) }
{
    match first {
        FirstWord::Replay
        | FirstWord::Place
        | FirstWord::List
        | FirstWord::Check
        | FirstWord::Run
        | FirstWord::Boot => { Ok(bare_reader(alloc)) }
        FirstWord::Make | FirstWord::Trial => jobs_reader(alloc),
        FirstWord::Batch => clients_reader(alloc),
        FirstWord::Export => batch_reader(alloc),
        FirstWord::Serve => workers_reader(alloc),
    }
}

// Takes no word.
fn bare_reader<'a>(alloc: Global) -> Reader<'a>
    ensures { app_of result ≡ bare_app }
{
    Reader::new(alloc, "shared_prover")
        .disable_help_flag(true)
        .disable_version_flag(true)
}

// Takes one word.
fn jobs_reader<'a>(alloc: Global) -> Result<Reader<'a>, AllocError>
    ensures { IfOk result (λ reader. app_of reader ≡ jobs_app) }
{
    let jobs = Arg::new(alloc, "jobs").required(true);
    bare_reader(alloc).arg(jobs)
}

fn clients_reader<'a>(alloc: Global) -> Result<Reader<'a>, AllocError>
    ensures { IfOk result (λ reader. app_of reader ≡ clients_app) }
{
    let clients = Arg::new(alloc, "clients")
        .long("clients")
        .action(ArgAction::Set)
        .required(true);
    bare_reader(alloc).arg(clients)
}

fn batch_reader<'a>(alloc: Global) -> Result<Reader<'a>, AllocError>
    ensures { IfOk result (λ reader. app_of reader ≡ clients_and_batch_app) }
{
    let batch = Arg::new(alloc, "batch")
        .long("batch")
        .action(ArgAction::Set)
        .required(true);
    let reader = clients_reader(alloc)?;
    reader.arg(batch)
}

fn workers_reader<'a>(alloc: Global) -> Result<Reader<'a>, AllocError>
    ensures { IfOk result (λ reader. app_of reader ≡ clients_and_workers_app) }
{
    let workers = Arg::new(alloc, "workers")
        .long("workers")
        .action(ArgAction::Set)
        .required(true);
    let reader = clients_reader(alloc)?;
    reader.arg(workers)
}
