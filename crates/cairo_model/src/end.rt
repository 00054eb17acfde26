ghost use Rattle.std.specs.Prelude.{◌≡◌};
ghost use Rattle.cairo_model.specs.declared.end.End.TheVariants.{OutOfMemory};

use std::alloc::{AllocError, AllocFailed};

/// How a call that takes memory ends without a value: refused, or for want of memory, which is never merged with a
/// refusal.
#[derive(Clone, Copy, Debug, PartialEq, Eq, Drop)]
pub enum End<E> {
    Refused(E),
    OutOfMemory,
}

impl<E> From<AllocError> for End<E> {
    ghost from_gives = { λ _ e. e ≡ OutOfMemory };

    fn from(_e: AllocError) -> End<E> {
        End::OutOfMemory
    }
}

impl<T: Drop, E> From<AllocFailed<T>> for End<E> {
    ghost from_gives = { λ _ e. e ≡ OutOfMemory };

    fn from(_e: AllocFailed<T>) -> End<E> {
        End::OutOfMemory
    }
}
