ghost use Rattle.std.specs.Prelude.{◌≡◌, ◌≤◌, ◌<◌, length, sum, IfOk};
ghost use Rattle.cairo_model.specs.Limits.{most_segments};
ghost use Rattle.cairo_model.specs.Pie.Records.{KeepsRules};

use crate::pie::Pie;
use std::alloc::{AllocError, Global};

/// A PIE with the same main, steps, sizes and cells.
pub(crate) fn copied(alloc: Global, pie: &Pie) -> Result<Pie, AllocError>
    ensures { IfOk result (λ copy. copy ≡ pie.now) }
{
    Ok(Pie {
        main: pie.main,
        steps: pie.steps,
        sizes: pie.sizes.as_slice().to_vec(alloc)?,
        cells: pie.cells.as_slice().to_vec(alloc)?,
    })
}

/// The cells that the segments have room for, all together.
pub(crate) fn size_in_all(pie: &Pie) -> u32
    requires { KeepsRules pie.now }
    ensures { result ≡ sum pie.now.sizes }
{
    total(pie.sizes.as_slice()) as u32
}

fn total(sizes: &[u32]) -> u64
    requires { length sizes.now ≤ most_segments }
    ensures { result ≡ sum sizes.now }
{
    sizes.iter().map(|size| u64::from(*size)).sum()
}
