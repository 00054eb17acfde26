ghost use Rattle.std.specs.Prelude.{◌≡◌, ◌≤◌, ◌^◌, ◌==◌, IfNone, IfSome, option_map, true};
ghost use Rattle.std.specs.Str.Parse.{digits_value};
ghost use Rattle.goldi_field.specs.Numbers.{prime};
ghost use Rattle.desk_script.specs.Working.Numbers.{all_digits, is_decimal as decimal_test, number_in};

use goldi_field::Felt;

/// The number below the limit whose decimal this is.
pub(crate) fn number_below(field: &[u8], limit: u64) -> Option<u64>
    ensures { result ≡ number_in limit field.now }
{
    if !is_decimal(field) {
        return None;
    }
    let number = value(field)?;
    if number < limit { Some(number) } else { None }
}

/// The same for a limit of 32 bits at most.
pub(crate) fn short_below(field: &[u8], limit: u64) -> Option<u32>
    requires { limit ≤ 2 ^ 32 }
    ensures { result ≡ number_in limit field.now }
{
    let number = number_below(field, limit)?;
    Some(number as u32)
}

/// The field number whose decimal this is.
pub(crate) fn felt_in(field: &[u8]) -> Option<Felt>
    ensures { option_map (λ f. f.number) result ≡ number_in prime field.now }
{
    if !is_decimal(field) {
        return None;
    }
    let number = value(field)?;
    Felt::new(number)
}

// Whether these are digits with no leading zero.
fn is_decimal(field: &[u8]) -> bool
    ensures { result ≡ decimal_test field.now }
{
    if field.is_empty() || field[0] == b'0' && field.len() > 1 {
        return false;
    }
    are_digits(field)
}

fn are_digits(field: &[u8]) -> bool
    ensures { result ≡ all_digits field.now }
{
    for digit in field {
        if !digit.is_ascii_digit() {
            return false;
        }
    }
    true
}

// The number that digits spell, none from 2^64 on.
#[tactic(auto, using(crate::proofs::Digits::at_least_here))]
fn value(digits: &[u8]) -> Option<u64>
    requires { all_digits digits.now ≡ true }
    ensures value { IfSome result (λ n. n ≡ digits_value 10 digits.now) }
    ensures large { IfNone result (2 ^ 64 ≤ digits_value 10 digits.now) }
{
    let mut value: u64 = 0;
    for digit in digits {
        let Some(tens) = value.checked_mul(10) else {
            return None;
        };
        let Some(more) = tens.checked_add(u64::from(*digit - b'0')) else {
            return None;
        };
        value = more;
    }
    Some(value)
}
