ghost use Rattle.std.specs.Thread.{IsSync};

use crate::point::Point;
use std::sync::Wait;

/// What a thread meets on its way, so that tests may hold it there, or ask the desk what stands. A gate changes no answer.
pub trait Gate: Sync {
    /// A thread has come to this point; it goes on when the call returns.
    fn reach<R: Wait + Sync>(&self, rt: &R, point: Point)
        requires { IsSync R.row };
}
