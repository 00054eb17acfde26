ghost use Rattle.std.specs.Prelude.{◌≡◌, ◌≤◌, ◌+◌, ◌∷◌, ℕ, List, IfOk, Err, map};
ghost use Rattle.std.specs.Vec.Iter.{into_iter_items};
ghost use Rattle.cairo_model.specs.Working.Answers.{Gives};
ghost use Rattle.desk_script.specs.Limits.{most_lines};
ghost use Rattle.desk_script.specs.Lines.{line_fields};
ghost use Rattle.desk_script.specs.Scripts.{IsFirstBadScriptLine, IsScript, pieces_of};
ghost use Rattle.desk_script.specs.Views.{line_view};
ghost use Rattle.desk_script.specs.Working.Ahead.{AreAhead};
ghost use Rattle.desk_script.specs.Working.Reading.{read_line};

use crate::ahead::read_ahead;
use crate::fields::{LINE_FEED, cut};
use crate::kinds::{ScriptKind, ScriptRefusal};
use crate::limits::MOST_LINES;
use crate::line::{Line, Script};
use crate::lines::line_in;
use cairo_model::End;
use std::alloc::Global;
use std::thread::Threads;
use std::vec::IntoIter;

/// The script that these bytes are for so many clients, or its first bad line (docs/SERVICE.md). The bytes are gone over once.
pub fn read_script(alloc: Global, bytes: &[u8], clients: u32) -> Result<Script, End<ScriptRefusal>>
    // What is taken is the script of these lines.
    ensures script { IfOk result (λ script. IsScript clients bytes.now (map line_view script.lines.items)) }
    // What is refused is so for its first bad line, and of what is wrong with it the first.
    ensures refused { (r : ScriptRefusal) → result ≡ Err (End.Refused r) → IsFirstBadScriptLine clients bytes.now r }
{
    script_of(alloc, bytes, clients, Vec::new(alloc))
}

/// The same, where the lines are read side by side first, each by itself, by the threads that `rayon` starts for them.
pub fn read_script_by_threads<R: Threads + Sync>(
    rt: &R,
    alloc: Global,
    bytes: &[u8],
    clients: u32,
) -> Result<Script, End<ScriptRefusal>>
    ensures script { IfOk result (λ script. IsScript clients bytes.now (map line_view script.lines.items)) }
    ensures refused { (r : ScriptRefusal) → result ≡ Err (End.Refused r) → IsFirstBadScriptLine clients bytes.now r }
{
    let ahead = read_ahead(rt, alloc, bytes, clients)?;
    script_of(alloc, bytes, clients, ahead)
}

// The script, by what was read ahead of its first lines.
fn script_of(
    alloc: Global,
    bytes: &[u8],
    clients: u32,
    ahead: Vec<Result<Line, End<ScriptKind>>>,
) -> Result<Script, End<ScriptRefusal>>
    requires ahead { AreAhead clients ahead.items (pieces_of bytes.now) }
    ensures script { IfOk result (λ script. IsScript clients bytes.now (map line_view script.lines.items)) }
    ensures refused { (r : ScriptRefusal) → result ≡ Err (End.Refused r) → IsFirstBadScriptLine clients bytes.now r }
{
    let mut ahead = ahead.into_iter();
    let mut lines = Vec::new(alloc);
    let mut left = bytes;
    while !left.is_empty() {
        let (text, after) = cut(left, LINE_FEED);
        let Some(after) = after else {
            return Err(refused(lines.len(), ScriptKind::NoEnd));
        };
        let line = match next_line(alloc, &mut ahead, text, clients) {
            Ok(line) => line,
            Err(End::Refused(kind)) => return Err(refused(lines.len(), kind)),
            Err(End::OutOfMemory) => return Err(End::OutOfMemory),
        };
        if lines.len() >= MOST_LINES {
            return Err(refused(lines.len(), ScriptKind::TooMany));
        }
        lines.push(line)?;
        left = after;
    }
    Ok(Script { lines })
}

// The line of this text, or what is wrong with it first. Where something was read ahead, the text's is the first of it.
fn next_line(
    alloc: Global,
    ahead: &mut IntoIter<Result<Line, End<ScriptKind>>, Global>,
    text: &[u8],
    clients: u32,
) -> Result<Line, End<ScriptKind>>
    requires ahead { (more : List (List ℕ)) × AreAhead clients (into_iter_items ahead.old) (text.now ∷ more) }
    ensures line { Gives line_view result (read_line clients (line_fields text.now)) }
    ensures ahead { (more : List (List ℕ)) → AreAhead clients (into_iter_items ahead.old) (text.now ∷ more) → AreAhead clients (into_iter_items ahead.new) more }
{
    match ahead.next() {
        Some(read) => read,
        None => line_in(alloc, text, clients),
    }
}

// The refusal of the line that follows so many.
fn refused(before: usize, kind: ScriptKind) -> End<ScriptRefusal>
    requires { before ≤ most_lines }
    ensures { result ≡ End.Refused (record { line = before + 1; kind = kind }) }
{
    End::Refused(ScriptRefusal {
        line: before as u32 + 1,
        kind,
    })
}
