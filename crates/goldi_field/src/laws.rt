//! Laws of the field, which do nothing when they run: a caller's proof has what a law that it calls ensures.

ghost use Rattle.goldi_field.specs.Numbers.{IsFelt, IsInverse, prime, product_of};
ghost use Rattle.std.specs.Prelude.{◌≡◌, ◌≢◌, ℕ};

use crate::{Felt, PRIME};

/// The constants `Felt::ZERO` and `Felt::ONE`, with a clause for each.
pub fn field_constants() -> (Felt, Felt)
    ensures prime { PRIME ≡ prime }
    ensures zero { result.0.number ≡ 0 }
    ensures one { result.1.number ≡ 1 }
{
    (Felt::ZERO, Felt::ONE)
}

/// Each field number but 0 has an inverse.
pub fn inverses_exist()
    ensures { (a : ℕ) → IsFelt a → a ≢ 0 → (b : ℕ) × IsInverse a b }
{}

/// A factor that is not 0 cancels. So a number has one inverse, and one number times `a` is a given product.
pub fn factors_cancel()
    ensures { (a b c : ℕ) → IsFelt a → IsFelt b → IsFelt c → a ≢ 0 → product_of a b ≡ product_of a c → b ≡ c }
{}

/// A product is 0 only where one of its factors is.
pub fn no_zero_products()
    ensures { (a b : ℕ) → IsFelt a → IsFelt b → a ≢ 0 → product_of a b ≡ 0 → b ≡ 0 }
{}
