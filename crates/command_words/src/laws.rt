ghost use Rattle.std.specs.Prelude.{◌≡◌, List, String};
ghost use Rattle.std.specs.declared.alloc.Global.{Global};
ghost use Rattle.command_words.specs.Words.{Asks};

use crate::command::Command;

/// Words ask for one command at most.
pub fn one_command()
    ensures { (words : List (String Global)) (one other : Command) → Asks words one → Asks words other → one ≡ other }
{}
