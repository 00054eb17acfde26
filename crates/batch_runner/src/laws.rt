ghost use Rattle.batch_runner.specs.Laws.{BatchCells, BatchIsSmall, BatchIsSpelled, BatchesAreAccepted, CellsRun, PlansAreFollowed, TasksInOrder, TasksStandIn};
ghost use Rattle.batch_runner.specs.Working.TaskRuns.{TaskPasses};

/// The cells of a batch rise, below 2^32, with none at 0 or at the bootloader's end: no address has two writers.
pub fn batch_cells_rise()
    ensures { BatchCells }
{}

/// The certificate of a batch has the spans and the bases of its plan.
pub fn plans_are_followed()
    ensures { PlansAreFollowed }
{}

/// The states of a batch are a run over its cells, from the bootloader's entry to its end.
pub fn cells_run()
    ensures { CellsRun }
{
    task_passes();
}

/// The certificate of a batch is accepted as one of its tasks: it prints what they show, and has a mark for each.
pub fn batches_are_accepted()
    ensures { BatchesAreAccepted }
{
    task_passes();
}

/// Each task's whole isolated run stands in that certificate.
pub fn tasks_stand_in()
    ensures { TasksStandIn }
{
    task_passes();
}

/// Its rows, marks and spans are in order: outside the tasks it stands in the bootloader, and it calls each task once.
pub fn tasks_in_order()
    ensures { TasksInOrder }
{
    task_passes();
}

/// It has few states and cells for its tasks.
pub fn batch_is_small()
    ensures { BatchIsSmall }
{
    task_passes();
}

/// Its lists can be counted by four bytes.
pub fn batch_is_spelled()
    ensures { BatchIsSpelled }
{
    task_passes();
}

// A task's relocated isolated run leads from its start to the address after the call, over each memory that has its cells.
fn task_passes()
    ensures { TaskPasses }
{
    relocator::runs_anywhere();
    relocator::keeps_arithmetic();
}
