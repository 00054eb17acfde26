ghost use Rattle.std.specs.Prelude.{◌≡◌};
ghost use Rattle.script_server.specs.Working.Closing.{PassCloses};

use session_desk::{Held, SharedDesk};
use std::alloc::AllocError;
use std::sync::Wait;
use turn_lock::Pass;

/// Closes the desk. Where memory is wanted it tries again, since workers that wait end at a closed desk alone.
pub(crate) fn close_desk<R: Wait + Sync>(rt: &R, desk: &SharedDesk, pass: &mut Pass<Held>)
    requires own { pass.old.lock ≡ desk.now.lock }
    ensures closes { PassCloses pass.old pass.new }
{
    for _ in rt.forever() {
        match desk.close(rt, pass) {
            Ok(_) => return,
            Err(AllocError) => {}
        }
    }
    unreachable!()
}
