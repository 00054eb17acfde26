ghost use Rattle.casm_text.specs.Statements.{offset_spelled, numeral_spelled, operand_spelled};
ghost use Rattle.casm_text.specs.Tokens.{is_digits};
ghost use Rattle.casm_text.specs.Words.{offset_fits, operand_fits, value_of};
ghost use Rattle.casm_text.specs.Working.PlainViews.{listed_cell, listed_operand};
ghost use Rattle.casm_text.specs.Working.Resolving.{fitting_numeral, fitting_offset, resolved_cell, resolved_operand, where_fits};
ghost use Rattle.casm_text.specs.Working.Views.{cell_view, numeral_view, offset_view, operand_view};
ghost use Rattle.std.specs.Prelude.{◌≡◌, ◌≤◌, ◌^◌, IfNone, IfSome, option_map, true};

use crate::plain::{PlainCell, PlainOperand};
use crate::syntax::{Cell, Numeral, Offset, Operand};
use goldi_field::{Felt, PRIME};

// The number that digits spell, none from 2^64 on.
#[tactic(auto, using(crate::proofs::DigitValues::at_least_here))]
fn value(digits: &[u8]) -> Option<u64>
    requires { is_digits digits.now ≡ true }
    ensures value { IfSome result (λ n. n ≡ value_of digits.now) }
    ensures large { IfNone result (2 ^ 64 ≤ value_of digits.now) }
{
    let mut value: u64 = 0;
    for digit in digits {
        let Some(tens) = value.checked_mul(10) else {
            return None;
        };
        let Some(more) = tens.checked_add(u64::from(*digit - b'0')) else {
            return None;
        };
        value = more;
    }
    Some(value)
}

/// The number of an offset, none where it is out of range.
pub(crate) fn offset(offset: Offset<'_>) -> Option<i16>
    requires { offset_spelled (offset_view offset) ≡ true }
    ensures { result ≡ fitting_offset (offset_view offset.entry) }
{
    match offset {
        Offset::None => Some(0),
        Offset::Plus(digits) => {
            let n = value(digits)?;
            if n <= 32_767 { Some(n as i16) } else { None }
        }
        Offset::Minus(digits) => {
            let n = value(digits)?;
            if n <= 32_768 {
                Some((-(n as i32)) as i16)
            } else {
                None
            }
        }
    }
}

/// The number that a numeral stands for, none where it is out of range.
pub(crate) fn numeral(numeral: Numeral<'_>) -> Option<Felt>
    requires { numeral_spelled (numeral_view numeral) ≡ true }
    ensures { option_map (λ n. n.number) result ≡ fitting_numeral (numeral_view numeral.entry) }
{
    match numeral {
        Numeral::Positive(digits) => Felt::new(value(digits)?),
        Numeral::Negative(digits) => {
            let n = value(digits)?;
            if n == 0 || n >= PRIME {
                None
            } else {
                Felt::new(PRIME - n)
            }
        }
    }
}

/// The cell, none where its offset is out of range.
pub(crate) fn cell(cell: Cell<'_>) -> Option<PlainCell>
    requires { offset_spelled (cell_view cell).offset ≡ true }
    ensures { option_map listed_cell result ≡ where_fits (offset_fits (cell_view cell.entry).offset) (resolved_cell (cell_view cell.entry)) }
{
    let offset = offset(cell.offset)?;
    Some(PlainCell {
        register: cell.register,
        offset,
    })
}

/// The operand, none where its offset or number is out of range.
pub(crate) fn operand(operand: Operand<'_>) -> Option<PlainOperand>
    requires { operand_spelled (operand_view operand) ≡ true }
    ensures { option_map listed_operand result ≡ where_fits (operand_fits (operand_view operand.entry)) (resolved_operand (operand_view operand.entry)) }
{
    match operand {
        Operand::Cell(c) => {
            let cell = cell(c)?;
            Some(PlainOperand::Cell(cell))
        }
        Operand::Numeral(n) => {
            let number = numeral(n)?;
            Some(PlainOperand::Number(number))
        }
    }
}
