//! The bootloader's words in a certificate of a batch.

ghost use Rattle.std.specs.Prelude.{◌≡◌, ◌↔◌, ◌+◌, ◌<◌, IsTrue, IfNone, IfSome, Some, length, option_map, slice_index};
ghost use Rattle.boot_program.specs.Faults.Rules.{HasBootWord, IsBootAddress, OfBatch};
ghost use Rattle.boot_program.specs.Words.{HasBoot, boot_words};
ghost use Rattle.cairo_model.specs.Certificate.Records.{batch};
ghost use Rattle.cairo_model.specs.Machine.FieldMemories.{cell_at};
ghost use Rattle.cairo_model.specs.Refusals.FirstFailing.{IsFirstFailing};

use boot_program::{BOOT, boot_constants};
use cairo_model::{Cells, Cert, Kind, felt_below};
use goldi_field::Felt;

/// The least address of the bootloader at which a batch's certificate hasn't its word.
pub(crate) fn missing_word(cert: &Cert) -> Option<u64>
    ensures none { IfNone result (OfBatch cert.now (HasBoot (cell_at cert.now.cells))) }
    ensures some { IfSome result (λ a. (cert.now.kind ≡ batch) × IsFirstFailing IsBootAddress (HasBootWord (cell_at cert.now.cells)) a) }
{
    match cert.kind {
        Kind::Alone => None,
        Kind::Batch => other_word(&cert.cells),
    }
}

fn other_word(cells: &Cells) -> Option<u64>
    ensures none { IfNone result (HasBoot (cell_at cells.now)) }
    ensures some { IfSome result (IsFirstFailing IsBootAddress (HasBootWord (cell_at cells.now))) }
{
    boot_constants();
    for index in 0..BOOT.len() {
        if !has_word(cells, index) {
            return Some(index as u64 + 1);
        }
    }
    None
}

fn has_word(cells: &Cells, index: usize) -> bool
    requires { index < length boot_words }
    ensures { IsTrue result ↔ (cell_at cells.now (index + 1) ≡ Some (slice_index boot_words index)) }
{
    holds(cells.get(felt_below(index as u64 + 1)), BOOT[index])
}

/// Whether a cell was found with this number.
pub(crate) fn holds(found: Option<Felt>, number: u64) -> bool
    ensures { IsTrue result ↔ (option_map (λ f. f.number) found ≡ Some number) }
{
    match found {
        Some(value) => value.value() == number,
        None => false,
    }
}
