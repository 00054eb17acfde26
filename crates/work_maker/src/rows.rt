//! Values, and the cells of segments that have them in order.

ghost use Rattle.std.specs.Prelude.{◌≡◌, ◌++◌, ◌∷◌, [], ◌≤◌, OnOk, length, map};
ghost use Rattle.std.specs.List.{All};
ghost use Rattle.goldi_field.specs.Numbers.{IsFelt};
ghost use Rattle.cairo_model.specs.Limits.{most_cells};
ghost use Rattle.cairo_model.specs.Machine.Values.{number as numeral};
ghost use Rattle.cairo_model.specs.Views.Machine.{datum};
ghost use Rattle.cairo_model.specs.Views.Pie.{memory_cell};
ghost use Rattle.work_maker.specs.Down.{cells_with};

use cairo_model::{PieCell, Place, Value, felt_below};
use std::alloc::AllocError;

/// Appends the cells of a segment, from its start on, that have these values.
pub(crate) fn put_row(
    cells: &mut Vec<PieCell>,
    segment: u16,
    values: &[Value],
) -> Result<(), AllocError>
    requires { length values.now ≤ most_cells }
    ensures { OnOk result (map memory_cell cells.new.items ≡ map memory_cell cells.old.items ++ cells_with segment 0 (map datum values.now)) }
{
    for index in 0..values.len() {
        let place = Place {
            segment,
            offset: index as u32,
        };
        cells.push(PieCell {
            place,
            value: values[index],
        })?;
    }
    Ok(())
}

/// Appends numbers as values.
pub(crate) fn put_numbers(values: &mut Vec<Value>, numbers: &[u64]) -> Result<(), AllocError>
    requires { All IsFelt numbers.now }
    ensures { OnOk result (map datum values.new.items ≡ map datum values.old.items ++ map numeral numbers.now) }
{
    for index in 0..numbers.len() {
        put_numeral(values, numbers[index])?;
    }
    Ok(())
}

/// Appends a number as a value.
pub(crate) fn put_numeral(values: &mut Vec<Value>, number: u64) -> Result<(), AllocError>
    requires { IsFelt number }
    ensures { OnOk result (map datum values.new.items ≡ map datum values.old.items ++ numeral number ∷ []) }
{
    values.push(Value::Number(felt_below(number)))?;
    Ok(())
}
