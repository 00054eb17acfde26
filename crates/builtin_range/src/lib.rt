//! The range builtin: a range cell is a number below 2^32.
#![tactic(auto)]

ghost use Rattle.std.specs.Prelude.{◌≡◌, ◌↔◌, ℕ, IsTrue, IsOk, All};
ghost use Rattle.builtin_range.specs.Ranges.{IsRangeCell, IsFirstOutOfRange};

/// Range cells hold numbers below this one.
pub const RANGE_LIMIT: u64 = 1 << 32;

/// Whether the number may stand in a range cell: whether it is below 2^32.
pub fn in_range(n: u64) -> bool
    ensures { IsTrue result ↔ IsRangeCell n }
{
    n < RANGE_LIMIT
}

/// Tells whether each of the numbers is a range cell, or else the least index of one that is not.
pub fn check_cells(cells: &[u64]) -> Result<(), usize>
    ensures all { IsOk result ↔ All IsRangeCell cells.now }
    ensures first { (i : ℕ) → ((result ≡ Err i) ↔ IsFirstOutOfRange cells.now i) }
{
    match cells.iter().position(|cell| !in_range(*cell)) {
        None => Ok(()),
        Some(index) => Err(index),
    }
}
