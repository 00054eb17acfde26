ghost use Rattle.std.specs.Prelude.{◌≡◌, ◌≤◌, ◌^◌, ◌++◌, length, map, IfOk};
ghost use Rattle.cairo_model.specs.Limits.{most_segments};
ghost use Rattle.cairo_model.specs.Pie.Records.{AreSizes};
ghost use Rattle.batch_plan.specs.Plans.{bases_on, task_bases};
ghost use Rattle.batch_plan.specs.Working.Parts.{AreAtMost, parts_of_code};

use crate::lengths::{CALL, HEADER, LOOP_STATE, RETURN_ADDRESS, ZEROS};
use crate::parts::{PartCells, cells_before_task, instances_before_task, size_at};
use cairo_model::limits::LEAST_SEGMENTS;
use cairo_model::segments::PROGRAM;
use cairo_model::{Layout, felt_below};
use goldi_field::Felt;
use std::alloc::{AllocError, Global};

/// The layout of a task whose segments have these sizes, and which begins at these addresses.
pub(crate) fn layout_at(alloc: Global, at: &PartCells, sizes: &[u32]) -> Result<Layout, AllocError>
    requires sizes { AreSizes sizes.now }
    requires low { AreAtMost (2 ^ 32) (parts_of_code at.now) }
    ensures { IfOk result (λ layout. layout ≡ task_bases (parts_of_code at.now) sizes.now) }
{
    let bases = bases_at(alloc, at, sizes)?;
    Ok(Layout { bases })
}

fn bases_at(alloc: Global, at: &PartCells, sizes: &[u32]) -> Result<Vec<Felt>, AllocError>
    requires sizes { AreSizes sizes.now }
    requires low { AreAtMost (2 ^ 32) (parts_of_code at.now) }
    ensures { IfOk result (λ bases. map (λ f. f.number) bases.items ≡ task_bases (parts_of_code at.now) sizes.now) }
{
    let words = size_at(sizes, PROGRAM);
    let mut bases = Vec::new(alloc);
    bases.push(felt_below(at.program))?;
    bases.push(felt_below(at.frame + cells_before_task(words)))?;
    bases.push(felt_below(at.output + HEADER))?;
    bases.push(felt_below(at.range))?;
    bases.push(felt_below(at.hash + instances_before_task(words)))?;
    bases.push(felt_below(at.frame + (LOOP_STATE + CALL)))?;
    bases.push(felt_below(RETURN_ADDRESS))?;
    let others = &sizes[LEAST_SEGMENTS..];
    push_others(bases, at.program + words + ZEROS, others)
}

// The bases of the segments from the seventh on, one after the other.
#[tactic(auto, unfolding(crate::specs::Plans::bases_on))]
fn push_others(bases: Vec<Felt>, start: u64, sizes: &[u32]) -> Result<Vec<Felt>, AllocError>
    requires start { start ≤ 2 ^ 40 }
    requires few { length sizes.now ≤ most_segments }
    ensures { IfOk result (λ out. map (λ f. f.number) out.items ≡ map (λ f. f.number) bases.items ++ bases_on start sizes.now) }
{
    let mut out = bases;
    let mut base = start;
    for size in sizes {
        out.push(felt_below(base))?;
        base += u64::from(*size);
    }
    Ok(out)
}
