ghost use Rattle.std.specs.Prelude.{ℕ, List, ◌≡◌, ◌↔◌, ◌++◌, [], IfOk, IsErr, Err, OnOk, OnErr};
ghost use Rattle.cairo_model.specs.Certificate.Records.{CertRecord};
ghost use Rattle.cert_format.specs.Spelling.{CertBytes};
ghost use Rattle.cert_format.specs.Feeding.{IsFed, HasFailed};
ghost use Rattle.cert_format.specs.Refusals.{IsFirstCertCause};

use crate::answer::answer_of;
use crate::carry::Carry;
use crate::feeding::feed_on;
use crate::partial::Partial;
use crate::refusal::CertRefusal;
use cairo_model::{Cert, End};
use std::alloc::{AllocError, Global};
use std::marker::Model;

/// A reader of certificates that is fed their bytes in pieces. It keeps the parts that it has read, and of the bytes only
/// those of a part that isn't whole yet. After want of memory it has failed, and reads no more.
#[derive(Drop)]
pub struct CertReader {
    failed: bool,
    partial: Partial,
    carry: Carry,
}

impl Model for CertReader {
    ghost use Rattle.cert_format.specs.Feeding.{ReaderRecord};

    ghost Value = { ReaderRecord };

    ghost use Rattle.cert_format.specs.Working.DraftViews.{partial as partial_of};
    ghost use Rattle.cert_format.specs.Working.Passing.{reader_with, HasInside};

    ghost view = { λ r. reader_with r.failed (partial_of r.partial) r.carry };

    ghost invariant = { λ r. HasInside (reader_with r.failed (partial_of r.partial) r.carry) };
}

impl CertReader {
    /// A reader that was fed nothing. Takes no memory.
    pub fn new(alloc: Global) -> CertReader
        ensures { IsFed result [] }
    {
        CertReader {
            failed: false,
            partial: Partial::new(alloc),
            carry: Carry::new(),
        }
    }

    /// Feeds it the next bytes. The room that is reserved is for the bytes that came, and not by a count that they announce.
    pub fn feed(&mut self, piece: &[u8]) -> Result<(), AllocError>
        // The bytes fed become the earlier ones followed by the piece.
        ensures fed { OnOk result ((fed : List ℕ) → IsFed self.old fed → IsFed self.new (fed ++ piece.now)) }
        ensures failed { OnErr result (HasFailed self.new) }
        ensures stays { HasFailed self.old → IsErr result }
    {
        if self.failed {
            return Err(AllocError);
        }
        self.failed = true;
        let fed = self.partial.place + self.carry.len() as u64;
        if fed.checked_add(piece.len() as u64).is_none() {
            return Err(AllocError);
        }
        feed_on(&mut self.partial, &mut self.carry, piece)?;
        self.failed = false;
        Ok(())
    }

    /// What the bytes are that it was fed, however they were cut (docs/CERTIFICATE.md).
    pub fn finish(self) -> Result<Cert, End<CertRefusal>>
        // What is read is the certificate of these bytes.
        ensures sound { IfOk result (λ c. (fed : List ℕ) → IsFed self fed → CertBytes fed c) }
        // What is refused is refused for the first cause that applies.
        ensures refused { (r : CertRefusal) → result ≡ Err (End.Refused r) → (fed : List ℕ) → IsFed self fed → IsFirstCertCause fed r }
        // What is refused is no certificate's.
        ensures only { (r : CertRefusal) → result ≡ Err (End.Refused r) → (fed : List ℕ) → IsFed self fed → (c : CertRecord) → ¬ CertBytes fed c }
        // A reader that has failed answers want of memory, and no other does.
        ensures failed { (result ≡ Err End.OutOfMemory) ↔ HasFailed self }
    {
        if self.failed {
            return Err(End::OutOfMemory);
        }
        match answer_of(self.partial, self.carry.as_slice()) {
            Ok(cert) => Ok(cert),
            Err(refusal) => Err(End::Refused(refusal)),
        }
    }
}
