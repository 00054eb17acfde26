ghost use Rattle.std.specs.Prelude.{◌≡◌, ◌++◌, ℕ, List, OnOk};
ghost use Rattle.cert_format.specs.Feeding.{IsFed};

use cert_format::CertReader;
use std::alloc::AllocError;

/// What takes an input piece by piece.
pub trait Taker {
    // These are the bytes that it took.
    ghost has_taken: { Self → List ℕ → Type 0 };

    /// Takes the next bytes.
    fn take(&mut self, piece: &[u8]) -> Result<(), AllocError>
        ensures { OnOk result ((taken : List ℕ) → has_taken self.old taken → has_taken self.new (taken ++ piece.now)) };
}

/// Keeps the bytes.
impl Taker for Vec<u8> {
    ghost has_taken = { λ bytes taken. bytes.items ≡ taken };

    fn take(&mut self, piece: &[u8]) -> Result<(), AllocError> {
        self.extend_from_slice(piece)
    }
}

/// Reads a certificate, and keeps no more of the bytes than those of a part that isn't whole.
impl Taker for CertReader {
    ghost has_taken = { IsFed };

    fn take(&mut self, piece: &[u8]) -> Result<(), AllocError> {
        self.feed(piece)
    }
}
