//! Where an instruction finds its operands.

ghost use Rattle.std.specs.Prelude.{◌≡◌, option_map};
ghost use Rattle.cairo_model.specs.Views.Machine.{datum, registers};
ghost use Rattle.cairo_word.specs.Instructions.{fields};
ghost use Rattle.seg_runner.specs.Steps.{operand_at as operand_of, op1_base as base_of};
ghost use Rattle.seg_runner.specs.Working.Seen.{place_datum};

use cairo_model::{Place, State, Value, add, offset_felt};
use cairo_word::Instruction;

/// The address of an operand, where it is defined and a place.
pub(crate) fn operand_at(from: Value, offset: i16) -> Option<Place>
    ensures { option_map place_datum result ≡ operand_of (datum from) offset }
{
    match add(from, Value::Number(offset_felt(offset)))? {
        Value::Number(_) => None,
        Value::At(place) => Some(place),
    }
}

/// What the address of op1 counts from, if op0 is there or not needed.
pub(crate) fn op1_base(
    instruction: &Instruction,
    state: &State,
    op0: Option<Value>,
) -> Option<Value>
    ensures { option_map datum result ≡ base_of (fields instruction.now) (registers state.now) (option_map datum op0) }
{
    match instruction.op1_src {
        0 => op0,
        1 => Some(state.pc),
        2 => Some(state.fp),
        _ => Some(state.ap),
    }
}
