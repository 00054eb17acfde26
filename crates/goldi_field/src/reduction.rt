ghost use Rattle.goldi_field.specs.Numbers.{prime};
ghost use Rattle.std.specs.Prelude.{◌≡◌, ◌+◌, ◌<◌, ◌%◌};

use crate::{Felt, PRIME};

// What a number leaves modulo the prime. There is no division: 2^64 leaves 2^32 - 1, and 2^96 leaves -1.
pub(crate) fn reduced(n: u128) -> Felt
    ensures { result.number ≡ n % prime }
{
    let low = n & 0xffff_ffff_ffff_ffff;
    let middle = n >> 64 & 0xffff_ffff;
    let high = n >> 96;
    let sum = low + middle * 0xffff_ffff + PRIME as u128 - high;
    folded((sum & 0xffff_ffff_ffff_ffff) + (sum >> 64) * 0xffff_ffff)
}

// The same for a number below twice the prime.
pub(crate) fn folded(n: u128) -> Felt
    requires { n < prime + prime }
    ensures { result.number ≡ n % prime }
{
    let number = if n < PRIME as u128 {
        n
    } else {
        n - PRIME as u128
    };
    Felt {
        number: number as u64,
    }
}
