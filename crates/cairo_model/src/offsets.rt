ghost use Rattle.std.specs.Prelude.{◌≡◌};
ghost use Rattle.cairo_word.specs.Instructions.{fields};
ghost use Rattle.cairo_model.specs.Machine.Steps.{offset_number};
ghost use Rattle.cairo_word.specs.Word.{instruction_size};

use crate::felts::felt_below;
use cairo_word::{Instruction, size};
use goldi_field::Felt;

/// An offset as a field number.
pub fn offset_felt(offset: i16) -> Felt
    ensures { result.number ≡ offset_number offset }
{
    if offset < 0 {
        felt_below(goldi_field::PRIME - u64::from(offset.unsigned_abs()))
    } else {
        felt_below(offset as u64)
    }
}

/// How many cells the instruction takes.
pub fn size_felt(instruction: &Instruction) -> Felt
    ensures { result.number ≡ instruction_size (fields instruction.now) }
{
    felt_below(size(instruction))
}
