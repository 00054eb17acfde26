ghost use Rattle.std.specs.Prelude.{◌≡◌, ◌++◌, IfOk, OnOk};
ghost use Rattle.std.specs.List.{flat_map};
ghost use Rattle.desk_script.specs.Transcripts.{IsTranscript, entry_text, fact_line};

use crate::batches::put_batches;
use crate::entries::put_entry;
use cairo_model::{Fact, put_fact};
use desk_core::{Desk, Entry};
use std::alloc::{AllocError, Global};

/// The text of what happened at a desk (docs/SERVICE.md): a line for each event of a client, each batch and each registered
/// fact, and `end`.
pub fn transcript(alloc: Global, desk: &Desk) -> Result<Vec<u8>, AllocError>
    ensures { IfOk result (λ text. IsTranscript desk.now text.items) }
{
    let facts = desk.registry().sorted(alloc)?;
    let mut text = Vec::new(alloc);
    put_entries(alloc, &mut text, desk.entries())?;
    put_batches(alloc, &mut text, desk.jobs(), desk.batches())?;
    put_facts(alloc, &mut text, facts.as_slice())?;
    text.extend_from_slice(b"end\n")?;
    Ok(text)
}

// Appends the lines of the entries.
fn put_entries(alloc: Global, text: &mut Vec<u8>, entries: &[Entry]) -> Result<(), AllocError>
    ensures { OnOk result (text.new.items ≡ text.old.items ++ flat_map entry_text entries.now) }
{
    for entry in entries {
        put_entry(alloc, text, entry)?;
    }
    Ok(())
}

// Appends the lines of the facts.
fn put_facts(alloc: Global, text: &mut Vec<u8>, facts: &[Fact]) -> Result<(), AllocError>
    ensures { OnOk result (text.new.items ≡ text.old.items ++ flat_map fact_line facts.now) }
{
    for fact in facts {
        put_fact_line(alloc, text, fact)?;
    }
    Ok(())
}

// Appends the line of a fact.
fn put_fact_line(alloc: Global, text: &mut Vec<u8>, fact: &Fact) -> Result<(), AllocError>
    ensures { OnOk result (text.new.items ≡ text.old.items ++ fact_line fact.now) }
{
    text.extend_from_slice(b"fact ")?;
    put_fact(alloc, text, fact)?;
    text.extend_from_slice(b"\n")
}
