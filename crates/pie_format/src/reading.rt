ghost use Rattle.std.specs.Prelude.{◌≡◌, IfOk, Err};
ghost use Rattle.cairo_model.specs.Working.Answers.{Gives};
ghost use Rattle.cairo_model.specs.Pie.Files.{PieBytes};
ghost use Rattle.cairo_model.specs.Refusals.ReadRefusals.{IsFirstReadCause};
ghost use Rattle.pie_format.specs.Working.Reading.{reading};

use crate::cell_reading::file_cells;
use crate::file_parts::file_parts;
use crate::metadata_rules::{file_metadata, narrowed};
use cairo_model::{End, Pie, ReadRefusal};
use std::alloc::Global;

/// The PIE that the bytes are a file of (docs/PIE.md). The bytes are read in one pass, and no room is reserved by a
/// length or a count that they announce.
pub fn read(alloc: Global, bytes: &[u8]) -> Result<Pie, End<ReadRefusal>>
    // What is read is the PIE of these bytes.
    ensures ok { IfOk result (λ pie. PieBytes bytes.now pie) }
    // What is refused has this cause first, and is no file of a PIE (`pie_has_no_cause`).
    ensures refused { (r : ReadRefusal) → result ≡ Err (End.Refused r) → IsFirstReadCause bytes.now r }
{
    pie_in(alloc, bytes)
}

#[tactic(auto, unfolding(crate::specs::Working::Reading::reading))]
fn pie_in(alloc: Global, bytes: &[u8]) -> Result<Pie, End<ReadRefusal>>
    ensures { Gives (λ p. p) result (reading bytes.now) }
{
    let (text, count, rest) = file_parts(bytes)?;
    let metadata = file_metadata(alloc, text)?;
    let sizes = narrowed(alloc, metadata.sizes.as_slice())?;
    let (cells, rest) = file_cells(alloc, sizes.as_slice(), count, rest)?;
    if !rest.is_empty() {
        return Err(End::Refused(ReadRefusal::TrailingBytes(rest.len() as u64)));
    }
    Ok(Pie {
        main: metadata.main,
        steps: metadata.steps as u32,
        sizes,
        cells,
    })
}
