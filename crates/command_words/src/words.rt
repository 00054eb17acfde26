ghost use Rattle.std.specs.Prelude.{◌≡◌, ◌∷◌, IfNone, IfOk, IfSome, map, string_bytes};
ghost use Rattle.command_words.specs.Readings.{program_name};
ghost use Rattle.command_words.specs.Words.{Asks, AsksForNothing};
ghost use Rattle.command_words.specs.Working.Asking.{IsAnyAsked};

use crate::command::Command;
use crate::first_word::{FirstWord, first_word_named};
use crate::matched::command_of;
use crate::readers::reader_of;
use clap::error::ErrorKind;
use std::alloc::{AllocError, Global};

/// The command that the words ask for. `clap` reads those after the first, behind the program's name.
pub fn command_in(alloc: Global, words: &[String]) -> Result<Option<Command>, AllocError>
    ensures found { IfOk result (λ asked. IfSome asked (Asks words.now)) }
    ensures none { IfOk result (λ asked. IfNone asked (AsksForNothing words.now)) }
{
    let Some((word, others)) = words.split_first() else {
        return Ok(None);
    };
    let Some(first) = first_word_named(word.as_str()) else {
        return Ok(None);
    };
    command_after(alloc, first, others)
}

// The command with this first word that those after it ask for.
fn command_after(
    alloc: Global,
    first: FirstWord,
    others: &[String],
) -> Result<Option<Command>, AllocError>
    ensures { IfOk result (IsAnyAsked first (map string_bytes others.now)) }
{
    let named = behind_name(alloc, others)?;
    let reader = reader_of(alloc, first)?;
    match reader.try_get_matches_from(named.as_slice()) {
        Ok(matches) => Ok(command_of(first, &matches)),
        Err(error) => match error.kind() {
            ErrorKind::OutOfMemory => Err(AllocError),
            _ => Ok(None),
        },
    }
}

// The program's name, and after it these words.
fn behind_name<'a>(alloc: Global, words: &'a [String]) -> Result<Vec<&'a str>, AllocError>
    ensures { IfOk result (λ named. map (λ word. word.now) named.items ≡ program_name ∷ map string_bytes words.entry.now) }
{
    let mut named = Vec::new(alloc);
    named.push("shared_prover")?;
    for word in words {
        named.push(word.as_str())?;
    }
    Ok(named)
}
