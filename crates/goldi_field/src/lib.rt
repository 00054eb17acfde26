//! Numbers modulo the prime 2^64 - 2^32 + 1.
#![tactic(auto)]

ghost use Rattle.goldi_field.specs.Numbers.{IsFelt, sum_of, difference_of, product_of, power_of};
ghost use Rattle.std.specs.Prelude.{◌≡◌, ◌↔◌, IsSome, IfSome};

mod inverse;
mod laws;
mod reduction;

pub use laws::{factors_cancel, field_constants, inverses_exist, no_zero_products};
use reduction::{folded, reduced};

/// The prime of the field, 2^64 - 2^32 + 1.
pub const PRIME: u64 = 18446744069414584321;

/// A field number: a number below the prime.
#[derive(Clone, Copy, Debug, PartialEq, Eq, PartialOrd, Ord, Hash)]
pub struct Felt {
    pub number: u64,
    pub ghost below: { IsFelt number },
}

impl Felt {
    /// The number 0.
    pub const ZERO: Felt = Felt { number: 0 };

    /// The number 1.
    pub const ONE: Felt = Felt { number: 1 };

    /// The field number that this is, if it is one.
    pub fn new(n: u64) -> Option<Felt>
        ensures found { IsSome result ↔ IsFelt n }
        ensures value { IfSome result (λ f. f.number ≡ n) }
    {
        if n < PRIME {
            Some(Felt { number: n })
        } else {
            None
        }
    }

    /// The number itself, below the prime.
    pub fn value(self) -> u64
        ensures { result ≡ self.number }
    {
        self.number
    }

    /// The sum modulo the prime.
    pub fn add(self, other: Felt) -> Felt
        ensures { result.number ≡ sum_of self.number other.number }
    {
        folded(self.number as u128 + other.number as u128)
    }

    /// The difference modulo the prime.
    pub fn sub(self, other: Felt) -> Felt
        ensures { result.number ≡ difference_of self.number other.number }
    {
        folded(self.number as u128 + PRIME as u128 - other.number as u128)
    }

    /// The product modulo the prime.
    pub fn mul(self, other: Felt) -> Felt
        ensures { result.number ≡ product_of self.number other.number }
    {
        reduced(self.number as u128 * other.number as u128)
    }

    /// What added to this number gives 0.
    pub fn neg(self) -> Felt
        ensures { result.number ≡ difference_of 0 self.number }
    {
        Felt::ZERO.sub(self)
    }

    /// The power by repeated squaring: at most 128 products.
    pub fn pow(self, exponent: u64) -> Felt
        ensures { result.number ≡ power_of self.number exponent }
    {
        let mut power = folded(1);
        let mut square = self;
        let mut left = exponent;
        while left > 0 {
            if left % 2 == 1 {
                power = power.mul(square);
            }
            square = square.mul(square);
            left /= 2;
        }
        power
    }
}
