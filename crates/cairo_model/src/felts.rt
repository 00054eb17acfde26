ghost use Rattle.std.specs.Prelude.{◌≡◌};
ghost use Rattle.goldi_field.specs.Numbers.{IsFelt};

use goldi_field::Felt;

/// The field number that a number of 32 bits is.
pub fn felt_of(n: u32) -> Felt
    ensures { result.number ≡ n }
{
    felt_below(u64::from(n))
}

/// The field number that a number below the prime is.
pub fn felt_below(n: u64) -> Felt
    requires { IsFelt n }
    ensures { result.number ≡ n }
{
    match Felt::new(n) {
        Some(felt) => felt,
        None => unreachable!(),
    }
}
