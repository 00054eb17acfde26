ghost use Rattle.std.specs.Prelude.{◌≡◌};
ghost use Rattle.boot_program.specs.Batch.Acceptance.{AcceptsBatch};
ghost use Rattle.boot_program.specs.Batch.Standing.{AllStandIn};

use crate::parcel::Parcel;
use cairo_model::Cert;
use std::marker::Model;

/// A certificate with the parcel that it is of: it is accepted as a batch of these tasks, and each of them stands in it.
#[derive(Debug, Drop)]
pub struct Certified {
    cert: Cert,
    parcel: Parcel,
}

impl Model for Certified {
    ghost use Rattle.boot_program.specs.Batch.Acceptance.{AcceptsBatch};
    ghost use Rattle.boot_program.specs.Batch.Standing.{AllStandIn};
    ghost use Rattle.boot_program.specs.Batch.Parcels.{CertifiedRecord};

    ghost Value = { CertifiedRecord };

    ghost view = { λ c. record { cert = c.cert; parcel = c.parcel } };

    ghost invariant = { λ c. AcceptsBatch c.cert c.parcel.tasks × AllStandIn c.cert c.parcel.tasks };
}

impl Certified {
    /// Both together. Takes no memory.
    pub fn of(cert: Cert, parcel: Parcel) -> Certified
        requires accepted { AcceptsBatch cert parcel.tasks }
        requires stand { AllStandIn cert parcel.tasks }
        ensures cert { result.cert ≡ cert }
        ensures parcel { result.parcel ≡ parcel }
    {
        Certified { cert, parcel }
    }

    /// The certificate.
    pub fn cert(&self) -> &Cert
        ensures cert { result.now ≡ self.now.cert }
        ensures accepted { AcceptsBatch self.now.cert self.now.parcel.tasks }
        ensures stand { AllStandIn self.now.cert self.now.parcel.tasks }
    {
        &self.cert
    }

    /// The parcel.
    pub fn parcel(&self) -> &Parcel
        ensures { result.now ≡ self.now.parcel }
    {
        &self.parcel
    }

    /// Both given back. Takes no memory.
    pub fn into_parts(self) -> (Cert, Parcel)
        ensures cert { result.0 ≡ self.cert }
        ensures parcel { result.1 ≡ self.parcel }
        ensures accepted { AcceptsBatch result.0 result.1.tasks }
        ensures stand { AllStandIn result.0 result.1.tasks }
    {
        (self.cert, self.parcel)
    }
}
