ghost use Rattle.std.specs.Prelude.{◌≡◌, ◌≤◌, length, map, sum, IfOk};
ghost use Rattle.cairo_model.specs.Limits.{most_cells, most_segments};
ghost use Rattle.cairo_model.specs.Pie.Layouts.{Fits, lone_bases};
ghost use Rattle.cairo_model.specs.Pie.Records.{PieRecord, KeepsRules};

use cairo_model::{Layout, Pie, felt_of};
use goldi_field::Felt;
use std::alloc::{AllocError, Global};

/// The layout alone: segment 0 at 1, and one free cell after each segment (docs/CERTIFICATE.md, 'Placing').
pub fn alone(alloc: Global, pie: &Pie) -> Result<Layout, AllocError>
    requires { KeepsRules pie.now }
    ensures bases { IfOk result (λ layout. layout ≡ lone_bases pie.now.sizes) }
    ensures fits { IfOk result (λ layout. Fits layout pie.now.sizes) }
{
    lone_layout_fits();
    let bases = bases_alone(alloc, pie.sizes.as_slice())?;
    Ok(Layout { bases })
}

fn bases_alone(alloc: Global, sizes: &[u32]) -> Result<Vec<Felt>, AllocError>
    requires few { length sizes.now ≤ most_segments }
    requires small { sum sizes.now ≤ most_cells }
    ensures { IfOk result (λ bases. map (λ f. f.number) bases.items ≡ lone_bases sizes.now) }
{
    let mut bases = Vec::new(alloc);
    let mut base = 1u32;
    for size in sizes {
        bases.push(felt_of(base))?;
        base += *size + 1;
    }
    Ok(bases)
}

/// The layout alone fits each PIE that keeps the rules of its file.
pub fn lone_layout_fits()
    ensures { (pie : PieRecord) → KeepsRules pie → Fits (lone_bases pie.sizes) pie.sizes }
{}
