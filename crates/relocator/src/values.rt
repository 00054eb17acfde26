ghost use Rattle.std.specs.Prelude.{◌≡◌, length, map};
ghost use Rattle.cairo_model.specs.Pie.Layouts.{relocated};
ghost use Rattle.cairo_model.specs.Views.Machine.{datum};
ghost use Rattle.relocator.specs.Relocations.{IsIn};

use cairo_model::{Value, felt_of};
use goldi_field::Felt;

/// The value as a field number, over these bases (docs/MACHINE.md). Takes no memory.
pub fn relocate_value(value: Value, bases: &[Felt]) -> Felt
    requires { IsIn (length bases.now) (datum value) }
    ensures { result.number ≡ relocated (map (λ f. f.number) bases.now) (datum value) }
{
    match value {
        Value::Number(number) => number,
        Value::At(place) => bases[place.segment as usize].add(felt_of(place.offset)),
    }
}
