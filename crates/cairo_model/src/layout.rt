ghost use Rattle.std.specs.Prelude.{◌≡◌, ◌↔◌, ◌+◌, ◌<◌, ◌≤◌, IsTrue, map, length};
ghost use Rattle.cairo_model.specs.Pie.Layouts.{Fits, base_of, IsInBounds, AreInBounds, ShareNone, IsApartFrom, IsApart, AreApart};
ghost use Rattle.cairo_model.specs.Working.Apart.{KeepApart};

use crate::pie::Pie;
use goldi_field::Felt;
use std::marker::Model;

/// The addresses at which the segments of a PIE begin in the field's memory, seen as their list of numbers.
#[derive(Debug, Drop)]
pub struct Layout {
    pub bases: Vec<Felt>,
}

impl Model for Layout {
    ghost use Rattle.std.specs.Prelude.{List, ℕ, map};

    ghost Value = { List ℕ };

    ghost view = { λ l. map (λ f. f.number) l.bases.items };
}

impl Layout {
    /// Whether each segment of the PIE, whatever its cells, has a base and keeps clear of the others.
    pub fn fits(&self, pie: &Pie) -> bool
        ensures { IsTrue result ↔ Fits self.now pie.now.sizes }
    {
        fit(self.bases.as_slice(), pie.sizes.as_slice())
    }
}

fn fit(bases: &[Felt], sizes: &[u32]) -> bool
    ensures { IsTrue result ↔ Fits (map (λ f. f.number) bases.now) sizes.now }
{
    bases.len() == sizes.len() && keep_apart(bases, sizes)
}

fn keep_apart(bases: &[Felt], sizes: &[u32]) -> bool
    requires { length bases.now ≡ length sizes.now }
    ensures { IsTrue result ↔ KeepApart (map (λ f. f.number) bases.now) sizes.now }
{
    are_in_bounds(bases) && are_apart(bases, sizes)
}

fn are_in_bounds(bases: &[Felt]) -> bool
    ensures { IsTrue result ↔ AreInBounds (map (λ f. f.number) bases.now) }
{
    for index in 0..bases.len() {
        if !is_in_bounds(base_at(bases, index)) {
            return false;
        }
    }
    true
}

fn is_in_bounds(base: u64) -> bool
    ensures { IsTrue result ↔ IsInBounds base }
{
    1 <= base && base < 1 << 32
}

fn base_at(bases: &[Felt], segment: usize) -> u64
    requires { segment < length bases.now }
    ensures { result ≡ base_of (map (λ f. f.number) bases.now) segment }
{
    bases[segment].value()
}

fn are_apart(bases: &[Felt], sizes: &[u32]) -> bool
    requires { length bases.now ≡ length sizes.now }
    ensures { IsTrue result ↔ AreApart (map (λ f. f.number) bases.now) sizes.now }
{
    for segment in 0..sizes.len() {
        if !is_apart(bases, sizes, segment) {
            return false;
        }
    }
    true
}

fn is_apart(bases: &[Felt], sizes: &[u32], segment: usize) -> bool
    requires one_each { length bases.now ≡ length sizes.now }
    requires there { segment < length sizes.now }
    ensures { IsTrue result ↔ IsApart (map (λ f. f.number) bases.now) sizes.now segment }
{
    for other in 0..sizes.len() {
        if !is_apart_from(bases, sizes, segment, other) {
            return false;
        }
    }
    true
}

fn is_apart_from(bases: &[Felt], sizes: &[u32], segment: usize, other: usize) -> bool
    requires one_each { length bases.now ≡ length sizes.now }
    requires here { segment < length sizes.now }
    requires there { other < length sizes.now }
    ensures { IsTrue result ↔ IsApartFrom (map (λ f. f.number) bases.now) sizes.now segment other }
{
    let base = base_at(bases, segment);
    let other_base = base_at(bases, other);
    segment == other || share_none(base, sizes[segment], other_base, sizes[other])
}

// Whether two stretches of addresses share none. An empty one shares none with any.
fn share_none(base: u64, size: u32, other: u64, other_size: u32) -> bool
    ensures { IsTrue result ↔ ShareNone base size other other_size }
{
    size == 0 || other_size == 0 || lie_apart(base, size, other, other_size)
}

fn lie_apart(base: u64, size: u32, other: u64, other_size: u32) -> bool
    requires here { 0 < size }
    requires there { 0 < other_size }
    ensures { IsTrue result ↔ ShareNone base size other other_size }
{
    ends_by(base, size, other) || ends_by(other, other_size, base)
}

fn ends_by(base: u64, size: u32, limit: u64) -> bool
    ensures { IsTrue result ↔ base + size ≤ limit }
{
    u128::from(base) + u128::from(size) <= u128::from(limit)
}
