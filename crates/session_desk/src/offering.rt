ghost use Rattle.std.specs.Prelude.{IfOk};
ghost use Rattle.session_desk.specs.Offers.{OffersBytes};

use cairo_model::End;
use desk_core::Offer;
use pie_replay::admit;
use std::alloc::{AllocError, Global};

/// The offer of a file's bytes: accepted with the PIE that they are, or refused (docs/PIE.md). It looks at no desk and waits for
/// nobody.
pub fn offer_of(alloc: Global, bytes: &[u8]) -> Result<Offer, AllocError>
    ensures { IfOk result (λ offer. OffersBytes bytes.now offer) }
{
    match admit(alloc, bytes) {
        Ok(checked) => Ok(Offer::Accepted(checked)),
        Err(End::Refused(refusal)) => Ok(Offer::Refused(refusal)),
        Err(End::OutOfMemory) => Err(AllocError),
    }
}
