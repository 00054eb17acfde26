ghost use Rattle.std.specs.Prelude.{◌≡◌, ◌++◌, OnOk};
ghost use Rattle.cairo_model.specs.Texts.Facts.{fact_text};

use crate::fact::Fact;
use crate::texts::numbers::put_numbers;
use std::alloc::{AllocError, Global};

/// Appends the program's hash in hexadecimal digits, and the outputs.
pub fn put_fact(alloc: Global, text: &mut Vec<u8>, fact: &Fact) -> Result<(), AllocError>
    ensures { OnOk result (text.new.items ≡ text.old.items ++ fact_text fact.now) }
{
    text.extend_from_slice(&fact.program.digits())?;
    text.extend_from_slice(b" outputs")?;
    put_numbers(alloc, text, fact.outputs.as_slice())
}
