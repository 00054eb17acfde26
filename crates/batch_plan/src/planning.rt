ghost use Rattle.std.specs.Prelude.{◌≡◌, ◌<◌, ◌≤◌, ◌^◌, All, length, IfOk};
ghost use Rattle.cairo_model.specs.Pie.Records.{AreSizes};
ghost use Rattle.cairo_model.specs.Views.Certificate.{span_of};
ghost use Rattle.boot_program.specs.Batch.Limits.{most_batch_tasks};
ghost use Rattle.batch_plan.specs.Parts.{parts_together, sizes_of_all};
ghost use Rattle.batch_plan.specs.Plans.{IsPlan, bases_of_all, plan_of};
ghost use Rattle.batch_plan.specs.Working.Parts.{AreAtMost, parts_of_code};

use crate::bases::layout_at;
use crate::batch_layout::BatchLayout;
use crate::laws::plans_hold;
use crate::lengths::{BATCH_FRAME, LOOP_STATE};
use crate::parts::{PartCells, further, task_cells};
use boot_program::{BOOT_END, Parcel};
use cairo_model::{Checked, Layout, Span, felt_below};
use std::alloc::{AllocError, Global};

/// The layout of a batch (docs/BOOTLOADER.md, 'The layout'): frames, output, range cells, hash instances and programs, one after
/// the other above the bootloader.
pub fn plan(alloc: Global, parcel: &Parcel) -> Result<BatchLayout, AllocError>
    ensures addresses { IfOk result (λ layout. layout ≡ plan_of (sizes_of_all parcel.now.tasks)) }
    ensures keeps { IfOk result (λ layout. IsPlan layout (sizes_of_all parcel.now.tasks)) }
{
    plans_hold();
    let tasks = parcel.tasks.as_slice();
    let all = cells_together(tasks);
    let frame = BOOT_END + 1;
    let output = frame + BATCH_FRAME + all.frame + LOOP_STATE;
    let range = output + 1 + all.output;
    let hash = range + all.range;
    let program = hash + all.hash;
    let first = PartCells {
        frame: frame + BATCH_FRAME,
        output: output + 1,
        range,
        hash,
        program,
    };
    Ok(BatchLayout {
        tasks: layouts_from(alloc, &first, tasks)?,
        frame: span(frame, output),
        output: span(output, range),
        range: span(range, hash),
        hash: span(hash, program),
        free: program + all.program,
    })
}

fn span(start: u64, stop: u64) -> Span
    requires low { stop < 2 ^ 32 }
    requires ordered { start ≤ stop }
    ensures { span_of result ≡ record { start = start; stop = stop } }
{
    let start = felt_below(start);
    let stop = felt_below(stop);
    Span { start, stop }
}

fn cells_together(tasks: &[Checked]) -> PartCells
    requires { length tasks.now ≤ most_batch_tasks }
    ensures parts { parts_of_code result ≡ parts_together (sizes_of_all tasks.now) }
    ensures few { AreAtMost (2 ^ 24) (parts_of_code result) }
    ensures sizes { All AreSizes (sizes_of_all tasks.now) }
{
    let mut parts = PartCells {
        frame: 0,
        output: 0,
        range: 0,
        hash: 0,
        program: 0,
    };
    for task in tasks {
        let more = task_cells(sizes_of(task));
        parts = further(&parts, &more);
    }
    parts
}

#[tactic(auto, unfolding(crate::specs::Plans::bases_of_all))]
fn layouts_from(
    alloc: Global,
    first: &PartCells,
    tasks: &[Checked],
) -> Result<Vec<Layout>, AllocError>
    requires low { AreAtMost (2 ^ 28) (parts_of_code first.now) }
    requires few { length tasks.now ≤ most_batch_tasks }
    ensures { IfOk result (λ layouts. layouts.items ≡ bases_of_all (parts_of_code first.now) (sizes_of_all tasks.now)) }
{
    let mut layouts = Vec::new(alloc);
    let mut at = *first;
    for task in tasks {
        let sizes = sizes_of(task);
        layouts.push(layout_at(alloc, &at, sizes)?)?;
        at = further(&at, &task_cells(sizes));
    }
    Ok(layouts)
}

fn sizes_of(task: &Checked) -> &[u32]
    ensures value { result.now ≡ task.now.pie.sizes }
    ensures sizes { AreSizes task.now.pie.sizes }
{
    // The states tell that the task is accepted, so that its sizes are those of a PIE.
    let _ = task.states();
    task.pie().sizes.as_slice()
}
