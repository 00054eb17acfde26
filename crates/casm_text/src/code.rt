ghost use Rattle.goldi_field.specs.Numbers.{IsFelt};
ghost use Rattle.std.proofs.Props.{props};
ghost use Rattle.std.specs.List.{AllByRecursion};
ghost use Rattle.std.specs.Prelude.{◌≡◌, ◌↔◌, IfSome, IsSome, IsTrue};

use goldi_field::PRIME;

/// The code of a program: its words, each below the prime of the field, and `main`, the offset in words at which it
/// begins.
#[derive(Debug, Drop)]
pub struct Code {
    pub words: Vec<u64>,
    pub main: u64,
    pub ghost felts: { AllByRecursion IsFelt words.items } by { Prim.hlevel props },
}

impl Code {
    /// The code of these words, if each is below the prime.
    pub fn new(words: Vec<u64>, main: u64) -> Option<Code>
        ensures found { IsSome result ↔ AllByRecursion IsFelt words.items }
        ensures words { IfSome result (λ code. code.words.items ≡ words.items) }
        ensures main { IfSome result (λ code. code.main ≡ main) }
    {
        if are_felts(words.as_slice()) {
            Some(Code { words, main })
        } else {
            None
        }
    }
}

fn are_felts(words: &[u64]) -> bool
    ensures { IsTrue result ↔ AllByRecursion IsFelt words.now }
{
    for word in words {
        if *word >= PRIME {
            return false;
        }
    }
    true
}
