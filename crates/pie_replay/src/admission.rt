ghost use Rattle.std.specs.Prelude.{◌≡◌, IfOk, Err};
ghost use Rattle.cairo_model.specs.Views.Refusals.{refused as refused_by};
ghost use Rattle.cairo_model.specs.Refusals.Verdicts.{IsVerdict, admitted as admitted_with};

use crate::acceptance::replay;
use cairo_model::{Checked, End, Refusal};
use pie_format::read;
use std::alloc::Global;

/// The verdict on the bytes of a file (docs/PIE.md): the PIE that they are, with its fact and its isolated states, where
/// it is accepted alone, or else the first cause against the bytes or against the PIE.
pub fn admit(alloc: Global, bytes: &[u8]) -> Result<Checked, End<Refusal>>
    ensures admitted { IfOk result (λ checked. IsVerdict bytes.now (admitted_with checked)) }
    ensures refused { (e : Refusal) → result ≡ Err (End.Refused e) → IsVerdict bytes.now (refused_by e) }
{
    let pie = match read(alloc, bytes) {
        Ok(pie) => pie,
        Err(End::Refused(refusal)) => return Err(End::Refused(Refusal::Read(refusal))),
        Err(End::OutOfMemory) => return Err(End::OutOfMemory),
    };
    match replay(alloc, pie) {
        Ok(checked) => Ok(checked),
        Err(End::Refused(refusal)) => Err(End::Refused(Refusal::Replay(refusal))),
        Err(End::OutOfMemory) => Err(End::OutOfMemory),
    }
}
