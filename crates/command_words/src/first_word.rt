ghost use Rattle.std.specs.Prelude.{◌≡◌, ◌≢◌, IfNone, IfSome};
ghost use Rattle.command_words.specs.Working.FirstWords.{spelling_of};

/// The first words of the commands.
#[derive(Clone, Copy, Debug)]
pub enum FirstWord {
    Replay,
    Place,
    List,
    Check,
    Run,
    Boot,
    Make,
    Batch,
    Export,
    Trial,
    Serve,
}

/// The first word that this word is.
pub fn first_word_named(word: &str) -> Option<FirstWord>
    ensures found { IfSome result (λ first. word.now ≡ spelling_of first) }
    ensures none { IfNone result ((first : FirstWord) → word.now ≢ spelling_of first) }
{
    if word == "replay" {
        Some(FirstWord::Replay)
    } else if word == "place" {
        Some(FirstWord::Place)
    } else if word == "list" {
        Some(FirstWord::List)
    } else if word == "check" {
        Some(FirstWord::Check)
    } else if word == "run" {
        Some(FirstWord::Run)
    } else if word == "boot" {
        Some(FirstWord::Boot)
    } else if word == "make" {
        Some(FirstWord::Make)
    } else if word == "batch" {
        Some(FirstWord::Batch)
    } else if word == "export" {
        Some(FirstWord::Export)
    } else if word == "trial" {
        Some(FirstWord::Trial)
    } else if word == "serve" {
        Some(FirstWord::Serve)
    } else {
        None
    }
}
