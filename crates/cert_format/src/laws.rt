ghost use Rattle.std.specs.Prelude.{◌≡◌, ◌<◌, ◌⊎◌, ℕ, List, slice_index};
ghost use Rattle.cairo_model.specs.Certificate.Records.{CertRecord, IsCertificate};
ghost use Rattle.cert_format.specs.Spelling.{CertBytes, spelling};
ghost use Rattle.cert_format.specs.Refusals.{IsCertCause, IsFirstCertCause};

use crate::refusal::CertRefusal;

/// What is written is read as that very certificate: its bytes have no cause to be refused, and are of no other one.
pub fn reads_back()
    ensures { (c : CertRecord) → IsCertificate c
        → ((r : CertRefusal) → ¬ IsCertCause (spelling c) r) × ((d : CertRecord) → CertBytes (spelling c) d → d ≡ c) }
{}

/// One byte string has at most one certificate.
pub fn one_certificate()
    ensures { (bytes : List ℕ) (c d : CertRecord) → CertBytes bytes c → CertBytes bytes d → c ≡ d }
{}

/// The bytes of a certificate have no cause to be refused.
pub fn certificate_has_no_cause()
    ensures { (bytes : List ℕ) (c : CertRecord) (r : CertRefusal) → CertBytes bytes c → ¬ IsCertCause bytes r }
{}

/// Bytes are a certificate's, or have a first cause to be refused.
pub fn certificate_or_cause()
    ensures { (bytes : List ℕ) → ((i : ℕ) → slice_index bytes i < 256)
        → ((c : CertRecord) × CertBytes bytes c) ⊎ ((r : CertRefusal) × IsFirstCertCause bytes r) }
{}

/// Bytes have at most one first cause.
pub fn one_first_cert_cause()
    ensures { (bytes : List ℕ) (r s : CertRefusal) → IsFirstCertCause bytes r → IsFirstCertCause bytes s → r ≡ s }
{}
