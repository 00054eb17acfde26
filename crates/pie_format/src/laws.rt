ghost use Rattle.std.specs.Prelude.{◌≡◌, ◌<◌, ◌⊎◌, ℕ, List, slice_index};
ghost use Rattle.cairo_model.specs.Pie.Records.{PieRecord};
ghost use Rattle.cairo_model.specs.Pie.Files.{PieBytes};
ghost use Rattle.cairo_model.specs.Refusals.ReadRefusals.{IsReadCause, IsFirstReadCause};

use cairo_model::ReadRefusal;

/// One byte string is a file of at most one PIE.
pub fn one_pie()
    ensures { (bytes : List ℕ) (p q : PieRecord) → PieBytes bytes p → PieBytes bytes q → p ≡ q }
{}

/// A file of a PIE has no cause to be refused.
pub fn pie_has_no_cause()
    ensures { (bytes : List ℕ) (pie : PieRecord) (r : ReadRefusal) → PieBytes bytes pie → ¬ IsReadCause bytes r }
{}

/// Bytes are a file of a PIE, or have a first cause to be refused.
pub fn file_or_cause()
    ensures { (bytes : List ℕ) → ((i : ℕ) → slice_index bytes i < 256)
        → ((pie : PieRecord) × PieBytes bytes pie) ⊎ ((r : ReadRefusal) × IsFirstReadCause bytes r) }
{}

/// Bytes have at most one first cause.
pub fn one_first_read_cause()
    ensures { (bytes : List ℕ) (r s : ReadRefusal) → IsFirstReadCause bytes r → IsFirstReadCause bytes s → r ≡ s }
{}
