ghost use Rattle.casm_text.specs.Tokens.{lines_of};
ghost use Rattle.casm_text.specs.Working.Assembling.{known_line as known_line_of, line_of as line_of_bytes, line_spelled, lines_left};
ghost use Rattle.casm_text.specs.Working.Views.{line_view};
ghost use Rattle.std.specs.Prelude.{◌∷◌, ◌≡◌, ◌+◌, ◌<◌, ◌^◌, IfOk, option_map, true};

use crate::parsing::line_in;
use crate::syntax::Line;
use crate::tokens::tokens;
use std::alloc::{AllocError, Global};

/// The first line of a text, and what follows its line feed, if it has one.
pub(crate) fn first_line(text: &str) -> (&[u8], Option<&str>)
    ensures { lines_of text.now ≡ result.0.now ∷ lines_left result.1 }
{
    match text.split_once('\n') {
        Some((line, after)) => (line.as_bytes(), Some(after)),
        None => (text.as_bytes(), None),
    }
}

/// What the bytes of a line are, if they are a line.
#[tactic(auto, using(crate::proofs::FewTokens::cut_line))]
pub(crate) fn line_of<'a>(alloc: Global, bytes: &'a [u8]) -> Result<Option<Line<'a>>, AllocError>
    ensures { IfOk result (λ line. option_map line_view line ≡ line_of_bytes bytes.now) }
{
    let tokens = tokens(alloc, bytes)?;
    Ok(line_in(tokens.as_slice()))
}

/// The line that the bytes are known to be.
pub(crate) fn known_line<'a>(alloc: Global, bytes: &'a [u8]) -> Result<Line<'a>, AllocError>
    ensures line { IfOk result (λ line. line_view line ≡ known_line_of bytes.now) }
    ensures spelled { IfOk result (λ line. line_spelled (line_view line) ≡ true) }
{
    match line_of(alloc, bytes)? {
        Some(line) => Ok(line),
        None => Ok(Line::Empty),
    }
}

/// The number of the line with this index: lines count from 1.
pub(crate) fn line_number(index: u64) -> u32
    requires { index + 1 < 2 ^ 32 }
    ensures { result ≡ index + 1 }
{
    (index + 1) as u32
}
