ghost use Rattle.std.specs.Prelude.{IfOk};
ghost use Rattle.cairo_model.specs.Certificate.Records.{CertRecord};
ghost use Rattle.boot_program.specs.Batch.Parcels.{ParcelRecord};
ghost use Rattle.boot_program.specs.Batch.Acceptance.{AcceptsBatch};
ghost use Rattle.boot_program.specs.Batch.Standing.{AllStandIn};

use boot_program::Parcel;
use cairo_model::Cert;
use std::alloc::{AllocError, Global};

/// Whoever makes the certificates of batches.
pub trait Maker {
    // Whether each certificate that it makes is accepted as one of its parcel's tasks.
    ghost honest: { Self → Type 0 };

    // Which certificates it gives for a parcel.
    ghost gives: { Self → ParcelRecord → CertRecord → Type 0 };

    /// A certificate of a parcel. An honest maker's is accepted as a batch of the parcel's tasks, each of which stands in it;
    /// another owes no more than that it gives this one.
    fn make(&self, alloc: Global, parcel: &Parcel) -> Result<Cert, AllocError>
        ensures gives { IfOk result (λ cert. gives self.now parcel.now cert) }
        ensures accepted { honest self.now → IfOk result (λ cert. AcceptsBatch cert parcel.now.tasks) }
        ensures stand { honest self.now → IfOk result (λ cert. AllStandIn cert parcel.now.tasks) };
}
