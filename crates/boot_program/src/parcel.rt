ghost use Rattle.std.specs.Prelude.{◌≡◌, IfOk};

use cairo_model::Checked;
use std::alloc::{AllocError, Global};
use std::marker::Model;

/// The tasks of a batch in order, one at least and within the limits of a batch, with the batch's number.
#[derive(Debug, Drop)]
pub struct Parcel {
    pub batch: u32,
    pub tasks: Vec<Checked>,
}

impl Model for Parcel {
    ghost use Rattle.boot_program.specs.Batch.Parcels.{ParcelRecord, WithinBatch};

    ghost Value = { ParcelRecord };

    ghost view = { λ p. record { batch = p.batch; tasks = p.tasks.items } };

    ghost invariant = { λ p. WithinBatch p.tasks.items };
}

impl Parcel {
    /// The same once more, in memory of its own.
    pub fn try_copy(&self, alloc: Global) -> Result<Parcel, AllocError>
        ensures { IfOk result (λ copy. copy ≡ self.now) }
    {
        Ok(Parcel {
            batch: self.batch,
            tasks: copied(alloc, self.tasks.as_slice())?,
        })
    }
}

fn copied(alloc: Global, tasks: &[Checked]) -> Result<Vec<Checked>, AllocError>
    ensures { IfOk result (λ copy. copy.items ≡ tasks.now) }
{
    let mut copy = Vec::new(alloc);
    for task in tasks {
        copy.push(task.try_copy(alloc)?)?;
    }
    Ok(copy)
}
