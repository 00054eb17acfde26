ghost use Rattle.std.specs.Prelude.{◌≡◌, ◌<◌, ◌^◌, All, IfOk};
ghost use Rattle.batch_plan.specs.Parts.{sizes_of_all};
ghost use Rattle.batch_plan.specs.Plans.{FollowBoot, IsPlan, plan_of};
ghost use Rattle.boot_program.specs.Batch.Acceptance.{AcceptsBatch};
ghost use Rattle.boot_program.specs.Batch.Order.{InOrder};
ghost use Rattle.boot_program.specs.Batch.Parcels.{WithinBatch};
ghost use Rattle.boot_program.specs.Batch.Standing.{AllStandIn};
ghost use Rattle.boot_program.specs.Cells.{state};
ghost use Rattle.boot_program.specs.Places.{entry_pc};
ghost use Rattle.cairo_model.specs.Views.Machine.{field_registers};
ghost use Rattle.batch_runner.specs.Layout.{boot_frame};
ghost use Rattle.batch_runner.specs.Certificates.{IsCertOf, IsSmall};
ghost use Rattle.batch_runner.specs.Laws.{AreBatchCells, IsAccepted};
ghost use Rattle.batch_runner.specs.Working.Places.{first_in, place_of};

use crate::laws::{
    batch_cells_rise, batch_is_small, batch_is_spelled, batches_are_accepted, cells_run,
    plans_are_followed, tasks_in_order, tasks_stand_in,
};
use crate::maker::Maker;
use crate::memory::batch_cells;
use crate::place::TaskPlace;
use crate::placing::placed_tasks;
use crate::rows::{states_over, steps_of_all, task_marks};
use crate::values::BOOT_FRAME;
use batch_plan::{BatchLayout, plan};
use boot_program::Parcel;
use cairo_model::{Cells, Cert, Checked, FieldState, Kind, felt_of};
use std::alloc::{AllocError, Global};

/// The maker that runs the bootloader on the tasks of a parcel.
#[derive(Clone, Copy, Debug)]
pub struct BootMaker;

impl Maker for BootMaker {
    ghost honest = { λ m. Unit {0} };

    ghost gives = { λ m parcel cert. IsCertOf parcel.tasks cert };

    /// The certificate of the parcel's tasks in closed form, in time and memory that are linear in its cells and states.
    fn make(&self, alloc: Global, parcel: &Parcel) -> Result<Cert, AllocError>
        ensures gives { IfOk result (λ cert. IsCertOf parcel.now.tasks cert) }
        ensures accepted { IfOk result (λ cert. AcceptsBatch cert parcel.now.tasks) }
        ensures stand { IfOk result (λ cert. AllStandIn cert parcel.now.tasks) }
        ensures in_order { IfOk result (λ cert. InOrder cert parcel.now.tasks) }
        ensures small { IfOk result (λ cert. IsSmall cert parcel.now.tasks) }
        ensures cells { IfOk result (λ cert. AreBatchCells cert.cells) }
    {
        batches_are_accepted();
        tasks_stand_in();
        tasks_in_order();
        batch_is_small();
        batch_cells_rise();
        let tasks = tasks_in(parcel);
        let layout = plan(alloc, parcel)?;
        certificate(alloc, tasks, &layout)
    }
}

fn certificate(alloc: Global, tasks: &[Checked], layout: &BatchLayout) -> Result<Cert, AllocError>
    requires accepted { All IsAccepted tasks.now }
    requires batch { WithinBatch tasks.now }
    requires planned { layout.now ≡ plan_of (sizes_of_all tasks.now) }
    requires keeps { IsPlan layout.now (sizes_of_all tasks.now) }
    ensures { IfOk result (λ cert. IsCertOf tasks.now cert) }
{
    batch_cells_rise();
    batch_is_spelled();
    cells_run();
    plans_are_followed();
    let first = first_place(layout);
    let placed = placed_tasks(alloc, tasks, layout.tasks.as_slice(), first)?;
    let placed = placed.as_slice();
    let memory = batch_cells(alloc, &first, layout.free as u32, placed)?;
    let cells = Cells::of(memory);
    let states = states_over(alloc, &cells, entry(), steps_of_all(placed))?;
    let marks = task_marks(alloc, placed)?;
    Ok(Cert {
        kind: Kind::Batch,
        output: layout.output,
        range: layout.range,
        hash: layout.hash,
        tasks: marks,
        cells,
        states,
    })
}

// The run begins at the bootloader's first word, just above the frame of the batch.
fn entry() -> FieldState
    ensures { field_registers result ≡ state entry_pc boot_frame boot_frame }
{
    FieldState {
        pc: felt_of(1),
        ap: felt_of(BOOT_FRAME),
        fp: felt_of(BOOT_FRAME),
    }
}

// Where the first task begins.
fn first_place(layout: &BatchLayout) -> TaskPlace
    requires ordered { FollowBoot layout.now }
    requires low { layout.now.free < 2 ^ 32 }
    requires counted { layout.now.output.start < layout.now.output.stop }
    ensures { place_of result ≡ first_in layout.now }
{
    TaskPlace {
        frame: BOOT_FRAME,
        output: layout.output.start.value() as u32 + 1,
        range: layout.range.start.value() as u32,
        hash: layout.hash.start.value() as u32,
        program: layout.hash.stop.value() as u32,
    }
}

fn tasks_in(parcel: &Parcel) -> &[Checked]
    ensures value { result.now ≡ parcel.now.tasks }
    ensures accepted { All IsAccepted result.now }
    ensures batch { WithinBatch result.now }
{
    let tasks = parcel.tasks.as_slice();
    are_accepted(tasks);
    tasks
}

// The states of each task tell that it is accepted.
fn are_accepted(tasks: &[Checked])
    ensures { All IsAccepted tasks.now }
{
    for task in tasks {
        let _run = task.states();
    }
}
