ghost use Rattle.std.specs.Prelude.{◌≡◌, IfOk, Err};
ghost use Rattle.std.specs.List.{flat_map};
ghost use Rattle.cairo_model.specs.Certificate.Records.{CertRecord};
ghost use Rattle.cert_format.specs.Spelling.{CertBytes};
ghost use Rattle.cert_format.specs.Refusals.{IsFirstCertCause};

use crate::reader::CertReader;
use crate::refusal::CertRefusal;
use cairo_model::{Cert, End};
use std::alloc::Global;

/// The certificate whose bytes these are (docs/CERTIFICATE.md). No room is reserved by a count that they announce.
pub fn read_cert(alloc: Global, bytes: &[u8]) -> Result<Cert, End<CertRefusal>>
    // What is read is the certificate of these bytes.
    ensures sound { IfOk result (λ c. CertBytes bytes.now c) }
    // What is refused is refused for the first cause that applies.
    ensures refused { (r : CertRefusal) → result ≡ Err (End.Refused r) → IsFirstCertCause bytes.now r }
    // What is refused is no certificate's.
    ensures only { (r : CertRefusal) → result ≡ Err (End.Refused r) → (c : CertRecord) → ¬ CertBytes bytes.now c }
{
    let mut reader = CertReader::new(alloc);
    reader.feed(bytes)?;
    reader.finish()
}

/// The certificate whose bytes these pieces are, one after the other: for every way of cutting them the answer is what the
/// format says of all of them.
pub fn read_pieces(alloc: Global, pieces: &[&[u8]]) -> Result<Cert, End<CertRefusal>>
    ensures sound { IfOk result (λ c. CertBytes (flat_map (λ piece. piece.now) pieces.now) c) }
    ensures refused { (r : CertRefusal) → result ≡ Err (End.Refused r) → IsFirstCertCause (flat_map (λ piece. piece.now) pieces.now) r }
    ensures only { (r : CertRefusal) → result ≡ Err (End.Refused r) → (c : CertRecord) → ¬ CertBytes (flat_map (λ piece. piece.now) pieces.now) c }
{
    let mut reader = CertReader::new(alloc);
    for piece in pieces {
        reader.feed(piece)?;
    }
    reader.finish()
}
