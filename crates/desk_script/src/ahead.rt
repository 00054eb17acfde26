//! The lines of a script read ahead, side by side.

ghost use Rattle.std.specs.Prelude.{◌≡◌, ◌++◌, List, ℕ, IfOk, map};
ghost use Rattle.std.specs.List.{AllZip};
ghost use Rattle.cairo_model.specs.Working.Answers.{Gives};
ghost use Rattle.desk_script.specs.Lines.{line_fields};
ghost use Rattle.desk_script.specs.Scripts.{pieces_of};
ghost use Rattle.desk_script.specs.Views.{line_view};
ghost use Rattle.desk_script.specs.Working.Ahead.{AreAhead};
ghost use Rattle.desk_script.specs.Working.Reading.{read_line};

use crate::fields::{LINE_FEED, cut};
use crate::kinds::ScriptKind;
use crate::limits::MOST_LINES;
use crate::line::Line;
use crate::lines::line_in;
use cairo_model::End;
use rayon::prelude::*;
use std::alloc::{AllocError, Global};
use std::thread::Threads;

/// What is read of the first lines, in order: each by itself, and as many as a script may have.
pub(crate) fn read_ahead(
    rt: &(impl Threads + Sync),
    alloc: Global,
    bytes: &[u8],
    clients: u32,
) -> Result<Vec<Result<Line, End<ScriptKind>>>, AllocError>
    ensures { IfOk result (λ v. AreAhead clients v.items (pieces_of bytes.now)) }
{
    let texts = first_texts(alloc, bytes)?;
    answers(rt, alloc, texts.as_slice(), clients)
}

// The texts of the first lines that a line feed ends.
fn first_texts(alloc: Global, bytes: &[u8]) -> Result<Vec<&[u8]>, AllocError>
    ensures { IfOk result (λ texts. (more : List (List ℕ)) × (pieces_of bytes.now ≡ map (λ t. t.now) texts.items ++ more)) }
{
    let mut texts = Vec::new(alloc);
    let mut left = bytes;
    while texts.len() < MOST_LINES {
        let (text, after) = cut(left, LINE_FEED);
        let Some(after) = after else {
            return Ok(texts);
        };
        texts.push(text)?;
        left = after;
    }
    Ok(texts)
}

// What is read of each of these texts. A line is worth a thread, few as they are.
fn answers(
    rt: &(impl Threads + Sync),
    alloc: Global,
    texts: &[&[u8]],
    clients: u32,
) -> Result<Vec<Result<Line, End<ScriptKind>>>, AllocError>
    ensures { IfOk result (λ v. AllZip (λ text answer. Gives line_view answer (read_line clients (line_fields text.now))) texts.now v.items) }
{
    texts
        .par_iter()
        .with_min_len(1)
        .map(
            |text: &&[u8]| -> Result<Line, End<ScriptKind>>
                ensures { Gives line_view result (read_line clients (line_fields text.now.now)) }
            { line_in(alloc, text, clients) },
        )
        .collect(rt, alloc)
}
