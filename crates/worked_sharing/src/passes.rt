// Shared desks with their passes, and offers.
ghost use Rattle.std.specs.Prelude.{◌≡◌, IfOk};
ghost use Rattle.session_desk.specs.SeenDesks.{IsIdlePass};

use cairo_model::Checked;
use desk_core::Offer;
use hex::decode;
use pie_replay::admit;
use session_desk::{Held, SharedDesk, offer_of};
use std::alloc::{AllocError, Global};
use std::test::Fail;
use turn_lock::Pass;

/// A shared desk of one client, with its three passes.
pub(crate) fn desk_for_three<R: Sync>(
    rt: &R,
    alloc: Global,
) -> Result<(SharedDesk, Pass<Held>, Pass<Held>, Pass<Held>), AllocError>
    ensures three { IfOk result (λ made. made.0.passes ≡ 3) }
    ensures first { IfOk result (λ made. (made.1.lock ≡ made.0.lock) × (made.1.width ≡ 1)) }
    ensures second { IfOk result (λ made. (made.2.lock ≡ made.0.lock) × (made.2.width ≡ 1)) }
    ensures second_idle { IfOk result (λ made. IsIdlePass made.2) }
    ensures third { IfOk result (λ made. (made.3.lock ≡ made.0.lock) × (made.3.width ≡ 1)) }
    ensures numbers { IfOk result (λ made. (made.1.number ≡ 0) × (made.2.number ≡ 1) × (made.3.number ≡ 2)) }
{
    let (desk, mut passes) = SharedDesk::new(rt, alloc, 1, 3)?;
    let Some(third) = passes.pop() else {
        return Err(AllocError);
    };
    let Some(second) = passes.pop() else {
        return Err(AllocError);
    };
    let Some(first) = passes.pop() else {
        return Err(AllocError);
    };
    Ok((desk, first, second, third))
}

/// The offer of a file in hexadecimal.
pub(crate) fn offered(alloc: Global, file: &str) -> Result<Offer, Fail> {
    let bytes = decode(alloc, file)?;
    Ok(offer_of(alloc, bytes.as_slice())?)
}

/// The task of a file in hexadecimal.
pub(crate) fn task(alloc: Global, file: &str) -> Result<Checked, Fail> {
    Ok(admit(alloc, decode(alloc, file)?.as_slice())?)
}
