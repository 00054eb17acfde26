ghost use Rattle.std.specs.Prelude.{◌≡◌, IfOk};
ghost use Rattle.cairo_model.specs.Views.Refusals.{refused as refused_by};
ghost use Rattle.shared_prover_cli.specs.Texts.{admitted_text, verdict_text};

use cairo_model::{Fact, Refusal, put_fact, put_refusal};
use std::alloc::{AllocError, Global};

/// The line of an admitted PIE.
pub fn admitted_line(alloc: Global, fact: &Fact) -> Result<Vec<u8>, AllocError>
    ensures { IfOk result (λ text. text.items ≡ admitted_text fact.now) }
{
    let mut text = b"admitted program ".to_vec(alloc)?;
    put_fact(alloc, &mut text, fact)?;
    text.push(b'\n')?;
    Ok(text)
}

/// The line of a refused file.
pub fn refusal_line(alloc: Global, refusal: Refusal) -> Result<Vec<u8>, AllocError>
    ensures { IfOk result (λ text. text.items ≡ verdict_text (refused_by refusal)) }
{
    let mut text = b"refused".to_vec(alloc)?;
    put_refusal(alloc, &mut text, refusal)?;
    text.push(b'\n')?;
    Ok(text)
}
