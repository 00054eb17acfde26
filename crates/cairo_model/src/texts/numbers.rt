ghost use Rattle.std.specs.Prelude.{◌≡◌, ◌++◌, [], ◌∷◌, OnOk, map, decimal};
ghost use Rattle.cairo_model.specs.Machine.StepFaults.{step_fault_number};
ghost use Rattle.cairo_model.specs.Texts.Numbers.{numbers_text, value_text};
ghost use Rattle.cairo_model.specs.Views.Machine.{datum};

use crate::fault::StepFault;
use crate::value::Value;
use goldi_field::Felt;
use std::alloc::{AllocError, Global};

/// Appends each number in decimal, after one space.
pub fn put_numbers(alloc: Global, text: &mut Vec<u8>, numbers: &[Felt]) -> Result<(), AllocError>
    ensures { OnOk result (text.new.items ≡ text.old.items ++ numbers_text (map (λ f. f.number) numbers.now)) }
{
    for number in numbers {
        put_number(alloc, text, number.value())?;
    }
    Ok(())
}

/// Appends two numbers in decimal, each after one space.
pub fn put_pair(
    alloc: Global,
    text: &mut Vec<u8>,
    first: u64,
    second: u64,
) -> Result<(), AllocError>
    ensures { OnOk result (text.new.items ≡ text.old.items ++ numbers_text (first ∷ second ∷ [])) }
{
    put_number(alloc, text, first)?;
    put_number(alloc, text, second)
}

/// Appends a number in decimal, after one space.
pub fn put_number(alloc: Global, text: &mut Vec<u8>, number: u64) -> Result<(), AllocError>
    ensures { OnOk result (text.new.items ≡ text.old.items ++ numbers_text (number ∷ [])) }
{
    text.push(b' ')?;
    put_decimal(alloc, text, number)
}

/// Appends a number, or the segment and the offset of a place, after one space.
pub fn put_value(alloc: Global, text: &mut Vec<u8>, value: Value) -> Result<(), AllocError>
    ensures { OnOk result (text.new.items ≡ text.old.items ++ value_text (datum value)) }
{
    match value {
        Value::Number(number) => put_number(alloc, text, number.value()),
        Value::At(place) => {
            put_number(alloc, text, u64::from(place.segment))?;
            text.push(b':')?;
            put_decimal(alloc, text, u64::from(place.offset))
        }
    }
}

/// Appends the decimal digits of a number.
pub fn put_decimal(alloc: Global, text: &mut Vec<u8>, number: u64) -> Result<(), AllocError>
    ensures { OnOk result (text.new.items ≡ text.old.items ++ decimal number) }
{
    let digits = number.to_string(alloc)?;
    text.extend_from_slice(digits.as_bytes())
}

/// The number by which a step's fault is written (docs/MACHINE.md).
pub fn number_of_fault(fault: StepFault) -> u64
    ensures { result ≡ step_fault_number fault }
{
    match fault {
        StepFault::Fetch => 1,
        StepFault::Word => 2,
        StepFault::Dst => 3,
        StepFault::Op0 => 4,
        StepFault::Op1 => 5,
        StepFault::Res => 6,
        StepFault::Jump => 7,
        StepFault::Call => 8,
        StepFault::Assert => 9,
        StepFault::Frame => 10,
    }
}
