ghost use Rattle.std.specs.Prelude.{◌≡◌, ◌↔◌, codes};
ghost use Rattle.shared_prover_cli.specs.Picks.{HasFirstWord};

use crate::picks::Pick;

/// The call that the first word is for.
pub fn pick(words: &[String]) -> Pick
    ensures { result ≡ Pick.Serve ↔ HasFirstWord (codes "serve") words.now }
{
    match words.first() {
        Some(word) if word.as_str() == "serve" => Pick::Serve,
        _ => Pick::Plain,
    }
}
