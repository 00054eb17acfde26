ghost use Rattle.goldi_field.specs.Numbers.{product_of};
ghost use Rattle.std.specs.Prelude.{◌≡◌, ◌≢◌, ◌↔◌, IsNone, IfSome};

use crate::Felt;
use crate::reduction::{folded, reduced};

impl Felt {
    /// The number whose product with this one is 1. It is found by Euclid's algorithm, in fewer than 100 turns.
    pub fn inv(self) -> Option<Felt>
        ensures none { IsNone result ↔ (self.number ≡ 0) }
        ensures value { IfSome result (λ f. product_of self.number f.number ≡ 1) }
    {
        if self.number == 0 {
            None
        } else {
            Some(inverse_of(self))
        }
    }
}

// Euclid's algorithm on the prime and `a`: `upper` and `lower` are its two numbers, and each is `a` times its factor.
fn inverse_of(a: Felt) -> Felt
    requires { a.number ≢ 0 }
    ensures { product_of a.number result.number ≡ 1 }
{
    let mut upper = crate::PRIME;
    let mut lower = a.number;
    let mut upper_factor = folded(0);
    let mut lower_factor = folded(1);
    while lower > 1 {
        let quotient = reduced((upper / lower) as u128);
        let rest = upper % lower;
        let factor = upper_factor.sub(quotient.mul(lower_factor));
        upper = lower;
        lower = rest;
        upper_factor = lower_factor;
        lower_factor = factor;
    }
    lower_factor
}
