// Whether a worker, or a client that settled, still holds a batch.
ghost use Rattle.std.specs.Prelude.{IsTrue};
ghost use Rattle.desk_core.specs.DeskRecords.{plain_of};
ghost use Rattle.script_runner.specs.Working.Doing.{NoneTaken};
ghost use Rattle.script_server.specs.Working.FreeBatches.{IsFreeBatch};

use desk_core::{Batch, Desk, Phase};

/// Whether no batch of the desk is taken by anybody.
pub(crate) fn none_is_taken(desk: &Desk) -> bool
    ensures { IsTrue result → NoneTaken (plain_of desk.now) }
{
    for batch in desk.batches() {
        if !is_free(batch) {
            return false;
        }
    }
    true
}

fn is_free(batch: &Batch) -> bool
    ensures { IsTrue result → IsFreeBatch batch.now }
{
    !matches!(batch.phase, Phase::Taken(_))
}
