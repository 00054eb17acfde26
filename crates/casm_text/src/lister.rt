ghost use Rattle.casm_text.specs.Listings.{IsListing};
ghost use Rattle.casm_text.specs.Lines.{statement_size as statement_size_of};
ghost use Rattle.casm_text.specs.Working.PlainViews.{listed_statement};
ghost use Rattle.casm_text.specs.Working.Rendering.{listed_at};
ghost use Rattle.casm_text.specs.Working.Writing.{PutsLine};
ghost use Rattle.goldi_field.specs.Numbers.{IsFelt};
ghost use Rattle.std.specs.List.{AllByRecursion};
ghost use Rattle.std.specs.Prelude.{◌≡◌, ◌<◌, ◌≤◌, IfOk, OnOk, string_bytes};

use crate::code::Code;
use crate::instructions::number;
use crate::plain::PlainStatement;
use crate::recognition::statement_at;
use crate::writing::put_statement;
use std::alloc::{AllocError, Global};

/// The text of a code's words, a statement a line (docs/ASSEMBLY.md). Assembled again it gives these words, if they are
/// at most 65,536 (`listing_assembles`).
pub fn listing(alloc: Global, code: &Code) -> Result<String, AllocError>
    ensures { IfOk result (λ text. IsListing code.now.words.items (string_bytes text)) }
{
    let words = code.words.as_slice();
    let mut text = String::new(alloc);
    let mut at = 0;
    while at < words.len() {
        at += put_line(alloc, &mut text, words[at], &words[at + 1..])?;
    }
    Ok(text)
}

// Appends the line for a word and the words after it, and says how many words the line gives.
fn put_line(alloc: Global, text: &mut String, word: u64, words: &[u64]) -> Result<usize, AllocError>
    requires word { IsFelt word }
    requires words { AllByRecursion IsFelt words.now }
    ensures line { OnOk result (PutsLine (string_bytes text.old) (string_bytes text.new) (listed_at word words.now)) }
    ensures some { IfOk result (λ n. (0 < n) × (n ≤ 2)) }
    ensures size { IfOk result (λ n. n ≡ statement_size_of (listed_at word words.now)) }
{
    let statement = statement_at(word, words);
    put_statement(alloc, text, &statement)?;
    text.push_str("\n")?;
    Ok(statement_size(&statement))
}

// How many words a statement gives.
fn statement_size(statement: &PlainStatement) -> usize
    ensures some { (0 < result) × (result ≤ 2) }
    ensures size { result ≡ statement_size_of (listed_statement statement.now) }
{
    match statement {
        PlainStatement::Word(_) => 1,
        _ => { if number(statement).is_some() { 2 } else { 1 } }
    }
}
