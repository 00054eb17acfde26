ghost use Rattle.std.specs.Prelude.{ℕ, ◌≡◌, ◌≤◌, ◌^◌, List};
ghost use Rattle.desk_script.specs.Lines.{ScriptLine};
ghost use Rattle.desk_script.specs.OwnLines.{DesksHaveOwnLines, JournalsHaveOwnLines, ScriptsHaveOwnLines};
ghost use Rattle.desk_script.specs.Scripts.{IsFirstBadScriptLine, IsScript};

use crate::kinds::ScriptRefusal;

/// Bytes are the script of one list of lines at most.
pub fn one_script()
    ensures { (clients : ℕ) (bytes : List ℕ) (a b : List ScriptLine) → clients ≤ 2 ^ 32 → IsScript clients bytes a → IsScript clients bytes b → a ≡ b }
{}

/// A script has no bad line: so bytes are taken exactly where they are a script, and refused exactly where a line is bad.
pub fn script_is_not_refused()
    ensures { (clients : ℕ) (bytes : List ℕ) (lines : List ScriptLine) (r : ScriptRefusal) → clients ≤ 2 ^ 32 → IsScript clients bytes lines → ¬ IsFirstBadScriptLine clients bytes r }
{}

/// Bytes have one first bad line at most, and it breaks one rule first.
pub fn one_script_refusal()
    ensures { (clients : ℕ) (bytes : List ℕ) (a b : ScriptRefusal) → IsFirstBadScriptLine clients bytes a → IsFirstBadScriptLine clients bytes b → a ≡ b }
{}

/// Before the first close, the transcript's submit lines of a client are those that its own offers determine by themselves: in
/// each legal journal, and so in that of each desk. Where it offers in time just what its lines of a script hand in, all its
/// submit lines are those of these lines.
pub fn own_lines_laws()
    ensures journals { JournalsHaveOwnLines }
    ensures desks { DesksHaveOwnLines }
    ensures scripts { ScriptsHaveOwnLines }
{}
