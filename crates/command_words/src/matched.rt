ghost use Rattle.std.specs.Prelude.{ℕ, IfNone, IfSome};
ghost use Rattle.clap.specs.Matches.{found_of};
ghost use Rattle.clap.specs.Walk.{rows_of};
ghost use Rattle.command_words.specs.Readings.{GivesNumber};
ghost use Rattle.command_words.specs.Working.Asking.{IsAnyMatched};

use crate::command::Command;
use crate::first_word::FirstWord;
use crate::limits::{LEAST_BATCH, LEAST_CLIENTS, LEAST_JOBS, LEAST_WORKERS, MOST_BATCH};
use crate::number::number_in;
use clap::ArgMatches;
use desk_core::limits::MOST_CLIENTS;
use script_server::limits::MOST_WORKERS;
use work_maker::limits::MOST_JOBS;

/// The command that begins with this word, with the numbers that the matches give.
pub fn command_of(first: FirstWord, matches: &ArgMatches<'_>) -> Option<Command>
    ensures { IsAnyMatched first (rows_of (found_of matches.now)) result }
{
    match first {
        FirstWord::Replay => Some(Command::Replay),
        FirstWord::Place => Some(Command::Place),
        FirstWord::List => Some(Command::List),
        FirstWord::Check => Some(Command::Check),
        FirstWord::Run => Some(Command::Run),
        FirstWord::Boot => Some(Command::Boot),
        FirstWord::Make => make_of(matches),
        FirstWord::Batch => batch_of(matches),
        FirstWord::Export => export_of(matches),
        FirstWord::Trial => trial_of(matches),
        FirstWord::Serve => serve_of(matches),
    }
}

fn make_of(matches: &ArgMatches<'_>) -> Option<Command>
    ensures { IsAnyMatched FirstWord.Make (rows_of (found_of matches.now)) result }
{
    let Some(jobs) = number_at(matches, "jobs", LEAST_JOBS, MOST_JOBS) else {
        return None;
    };
    Some(Command::Make(jobs))
}

fn trial_of(matches: &ArgMatches<'_>) -> Option<Command>
    ensures { IsAnyMatched FirstWord.Trial (rows_of (found_of matches.now)) result }
{
    let Some(jobs) = number_at(matches, "jobs", LEAST_JOBS, MOST_JOBS) else {
        return None;
    };
    Some(Command::Trial(jobs))
}

fn batch_of(matches: &ArgMatches<'_>) -> Option<Command>
    ensures { IsAnyMatched FirstWord.Batch (rows_of (found_of matches.now)) result }
{
    let Some(clients) = number_at(matches, "clients", LEAST_CLIENTS, MOST_CLIENTS) else {
        return None;
    };
    Some(Command::Batch(clients))
}

fn export_of(matches: &ArgMatches<'_>) -> Option<Command>
    ensures { IsAnyMatched FirstWord.Export (rows_of (found_of matches.now)) result }
{
    let Some(clients) = number_at(matches, "clients", LEAST_CLIENTS, MOST_CLIENTS) else {
        return None;
    };
    let Some(batch) = number_at(matches, "batch", LEAST_BATCH, MOST_BATCH) else {
        return None;
    };
    Some(Command::Export(clients, batch))
}

fn serve_of(matches: &ArgMatches<'_>) -> Option<Command>
    ensures { IsAnyMatched FirstWord.Serve (rows_of (found_of matches.now)) result }
{
    let Some(clients) = number_at(matches, "clients", LEAST_CLIENTS, MOST_CLIENTS) else {
        return None;
    };
    let Some(workers) = number_at(matches, "workers", LEAST_WORKERS, MOST_WORKERS) else {
        return None;
    };
    Some(Command::Serve(clients, workers))
}

// The number from `least` to `most` that is the value of this argument.
fn number_at(matches: &ArgMatches<'_>, id: &str, least: u32, most: u32) -> Option<u32>
    ensures found { IfSome result (λ number. GivesNumber (rows_of (found_of matches.now)) (record { id = id.now; least = least; most = most; number = number })) }
    ensures none { IfNone result ((number : ℕ) → ¬ GivesNumber (rows_of (found_of matches.now)) (record { id = id.now; least = least; most = most; number = number })) }
{
    let Some(word) = matches.get_str(id) else {
        return None;
    };
    number_in(word, least, most)
}
