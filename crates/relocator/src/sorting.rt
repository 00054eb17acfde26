ghost use Rattle.std.specs.Prelude.{IfOk, map};
ghost use Rattle.std.specs.List.{IsDistinct};
ghost use Rattle.std.specs.List.Sorted.{IsPermutation};
ghost use Rattle.std.specs.Prelude.{nat_eq};
ghost use Rattle.cairo_model.specs.Machine.FieldMemories.{field_cell, addresses, AddressesRise};

use goldi_field::Felt;
use std::alloc::AllocError;

/// Cells with distinct addresses, by rising addresses.
pub(crate) fn sorted_cells(cells: Vec<(Felt, Felt)>) -> Result<Vec<(Felt, Felt)>, AllocError>
    requires { IsDistinct nat_eq (addresses (map field_cell cells.items)) }
    ensures rise { IfOk result (λ sorted. AddressesRise (map field_cell sorted.items)) }
    ensures same_cells { IfOk result (λ sorted. IsPermutation (map field_cell cells.items) (map field_cell sorted.items)) }
{
    let mut rising = cells;
    rising.sort_by_key(|&(address, _)| address.value())?;
    Ok(rising)
}
